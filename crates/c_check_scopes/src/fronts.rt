ghost use Rattle.std.specs.Prelude.{◌≡◌};
ghost use Rattle.c_rules.specs.Names.{after_front, is_digit, are_digits, is_number, is_rest_of_pair, is_pair};
ghost use Rattle.c_check_scopes.specs.Front.{option_seen};

// What follows the first bytes in the second ones, which begin with them.
pub fn after_front<'t>(front: &[u8], text: &'t [u8]) -> Option<&'t [u8]>
    ensures { option_seen result ≡ after_front front.now text.now }
{
    match front {
        [] => Some(text),
        [b, bs @ ..] => match text {
            [] => None,
            [c, cs @ ..] => {
                if *b != *c {
                    return None;
                }
                after_front(bs, cs)
            }
        },
    }
}

// Whether it is the code of a decimal digit.
fn is_digit(b: u8) -> bool
    ensures { result ≡ is_digit b }
{
    48 <= b && b <= 57
}

// Whether these are digits alone.
fn are_digits(text: &[u8]) -> bool
    ensures { result ≡ are_digits text.now }
{
    match text {
        [] => true,
        [b, bs @ ..] => {
            if !is_digit(*b) {
                return false;
            }
            are_digits(bs)
        }
    }
}

// Whether these are digits, and one at least.
pub fn is_number(text: &[u8]) -> bool
    ensures { result ≡ is_number text.now }
{
    match text {
        [] => false,
        _ => are_digits(text),
    }
}

// Whether these are digits, an underscore, and a number.
fn is_rest_of_pair(text: &[u8]) -> bool
    ensures { result ≡ is_rest_of_pair text.now }
{
    match text {
        [] => false,
        [b, bs @ ..] => {
            if *b == 95 {
                return is_number(bs);
            }
            if !is_digit(*b) {
                return false;
            }
            is_rest_of_pair(bs)
        }
    }
}

// Whether these are a number, an underscore, and a number.
pub fn is_pair(text: &[u8]) -> bool
    ensures { result ≡ is_pair text.now }
{
    match text {
        [] => false,
        [b, bs @ ..] => {
            if !is_digit(*b) {
                return false;
            }
            is_rest_of_pair(bs)
        }
    }
}
