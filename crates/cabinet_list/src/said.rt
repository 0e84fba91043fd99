// What the arguments say: the number of a kind, in decimal; and the word for a row of records.
ghost use Rattle.std.specs.Prelude.{◌≡◌, ◌<◌, IfSome};
ghost use Rattle.cabinet_list.specs.Said.{digit_of, number_of, is_run};

fn digit(c: u8) -> Option<u8>
    ensures value { result ≡ digit_of c }
    ensures small { IfSome result (λ d. d < 10) }
{
    match c {
        b'0'..=b'9' => Some(c - b'0'),
        _ => None,
    }
}

// What one or two digits say, and nothing where there is anything else.
pub fn number(text: &[u8]) -> Option<u8>
    ensures { result ≡ number_of text.now }
{
    match text {
        [a] => digit(*a),
        [a, b] => Some(10 * digit(*a)? + digit(*b)?),
        _ => None,
    }
}

// Whether it is the word `run`.
pub fn is_run(word: &[u8]) -> bool
    ensures { result ≡ is_run word.now }
{
    word == b"run".as_slice()
}
