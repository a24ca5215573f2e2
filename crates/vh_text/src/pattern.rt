ghost use Rattle.std.specs.Prelude.{◌≡◌, ◌≤◌, ◌<◌, ◌+◌, ◌-◌, ◌++◌, ◌&&◌, take, IsSome, IfSome};
ghost use Rattle.std.specs.Option.{option_map};
ghost use Rattle.vh_logic.specs.Vector.{width_of};
ghost use Rattle.vh_text.specs.Digits.{character_digits, spelled_characters, spelled_digits, characters, question_as_z};
ghost use Rattle.vh_text.specs.Views.{pattern_of, pattern_pushed, digits_alone};

use crate::digits::is_held;
use crate::scan::{is_x_letter, is_z_letter};
use vh_logic::{Digit, MAX_WIDTH, Plane, Vec4, concat, select};

// Digits that are read from the highest one down: the lowest ones, as many as a vector holds, and
// whether filling gives the others back.
#[derive(Clone, Copy)]
pub(crate) struct Pattern {
    pub(crate) value: Vec4,
    pub(crate) is_held: bool,
}

// The digits of a text of characters of `group` digits each, without underscores and with `?` for
// z; `None` where a character has no digits. The first byte is no underscore.
pub(crate) fn read_pattern(bytes: &[u8], group: u32) -> Option<Pattern>
    requires least { 1 ≤ group }
    requires most { group ≤ 4 }
    requires begun { IsSome (spelled_characters bytes.now) }
    ensures { result ≡ option_map pattern_of (spelled_digits group (characters bytes.now)) }
{
    let (first, rest) = bytes.split_first()?;
    let mut pattern = Pattern {
        value: character_digits(z_of_question(*first), group)?,
        is_held: true,
    };
    for b in rest {
        if *b != b'_' {
            let digits = character_digits(z_of_question(*b), group)?;
            pattern = pushed(&pattern, &digits);
        }
    }
    Some(pattern)
}

// The pattern with a group of digits below.
fn pushed(pattern: &Pattern, group: &Vec4) -> Pattern
    requires { width_of group.now ≤ 4 }
    ensures { result ≡ pattern_pushed pattern.now group.now.digits }
{
    let room = MAX_WIDTH - group.width();
    let value = &pattern.value;
    let kept = select(value, 0, room.min(value.width()));
    Pattern {
        value: concat(&kept, group),
        is_held: pattern.is_held && is_held(value, room),
    }
}

// `?` is read as z.
pub(crate) fn z_of_question(b: u8) -> u8
    ensures { result ≡ question_as_z b }
{
    if b == b'?' { b'z' } else { b }
}

// The digits of a character in a base of 2 to the power of `group` digits.
fn character_digits(c: u8, group: u32) -> Option<Vec4>
    requires least { 1 ≤ group }
    requires most { group ≤ 4 }
    ensures value { result ≡ option_map digits_alone (character_digits group c) }
    ensures width { IfSome result (λ v. width_of v ≡ group) }
{
    if is_x_letter(c) {
        return Some(Vec4::filled(group, Digit::X, false));
    }
    if is_z_letter(c) {
        return Some(Vec4::filled(group, Digit::Z, false));
    }
    let n = (c as char).to_digit(1 << group)?;
    Some(Vec4::from_planes(group, n as Plane, 0, false))
}
