ghost use Rattle.std.specs.Prelude.{◌≡◌, ◌≤◌, length, map, bytes_eq, nat_eq, IfSome};
ghost use Rattle.std.specs.List.{find, starts_with};
ghost use Rattle.std.specs.Option.{option_map};
ghost use Rattle.vh_lex.specs.Views.{row_seen};

// What the first row with the spelling holds. It takes time in the number of rows.
pub(crate) fn spelled<T: Copy>(rows: &[(&[u8], T)], word: &[u8]) -> Option<T>
    ensures { result ≡ option_map (λ row. row.1)
        (find (λ row. bytes_eq row.0 word.now) (map row_seen rows.now)) }
{
    for (spelling, meaning) in rows {
        if *spelling == word {
            return Some(*meaning);
        }
    }
    None
}

// The first row whose spelling the bytes begin with. It takes time in the number of rows.
pub(crate) fn begun<'a, T: Copy>(rows: &[(&'a [u8], T)], bytes: &[u8]) -> Option<(&'a [u8], T)>
    ensures value { option_map row_seen result ≡ find (λ row. starts_with nat_eq bytes.now row.0)
        (map row_seen rows.now) }
    ensures inside { IfSome result (λ row. length row.0.now ≤ length bytes.now) }
{
    for (spelling, meaning) in rows {
        if bytes.starts_with(spelling) {
            return Some((*spelling, *meaning));
        }
    }
    None
}
