ghost use Rattle.std.specs.Prelude.{◌≡◌, string_bytes};
ghost use Rattle.std.specs.List.{list_all, list_any};
ghost use Rattle.vh_host_words.specs.Words.{can_be_run, is_design_word, is_script_word, is_file_word, texts};

// How many file words there are at most.
const FILE_LIMIT: usize = 8;

/// Can the file words be run?
pub fn can_be_run(files: &[String]) -> bool
    ensures { result ≡ can_be_run (texts files.now) }
{
    if files.len() > FILE_LIMIT {
        return false;
    }
    if !all_files(files) {
        return false;
    }
    any_design(files)
}

// Does each word name a file?
fn all_files(files: &[String]) -> bool
    ensures { result ≡ list_all (λ file. is_file_word (string_bytes file)) files.now }
{
    files.iter().all(|file| is_file_word(file.as_str()))
}

// Does one of them name a Verilog file?
fn any_design(files: &[String]) -> bool
    ensures { result ≡ list_any (λ file. is_design_word (string_bytes file)) files.now }
{
    files.iter().any(|file| is_design_word(file.as_str()))
}

// Does the word name a file?
fn is_file_word(word: &str) -> bool
    ensures { result ≡ is_file_word word.now }
{
    is_design_word(word) || is_script_word(word)
}

/// Does the word name a Verilog file?
pub fn is_design_word(word: &str) -> bool
    ensures { result ≡ is_design_word word.now }
{
    word.as_bytes().ends_with(b".v")
}

/// Does the word name an application's script?
pub fn is_script_word(word: &str) -> bool
    ensures { result ≡ is_script_word word.now }
{
    word.as_bytes().ends_with(b".app")
}
