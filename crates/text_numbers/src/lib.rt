//! Whole numbers and basis indices, as the words of circuit text write them.
#![tactic(auto)]

ghost use Rattle.std.specs.Prelude.{◌≡◌, ◌≤◌, length};
ghost use Rattle.text_numbers.specs.Numbers.{number_of, well_formed, digits_value, index_of, ReadsNumber, ReadsIndex};

use exact::QubitCount;

/// The whole number that a word writes: one to five digits with no needless zero.
pub fn whole_number(word: &[u8]) -> Option<u32>
    ensures equals { result ≡ number_of word.now }
    ensures reads { ReadsNumber word.now result }
{
    if well_formed(word) {
        digits(word)
    } else {
        None
    }
}

/// One to five bytes, of which the first is 0 only where it stands alone.
fn well_formed(word: &[u8]) -> bool
    ensures { result ≡ well_formed word.now }
{
    !matches!(word, [] | [b'0', _, ..] | [_, _, _, _, _, _, ..])
}

/// The number that at most five digits write.
fn digits(word: &[u8]) -> Option<u32>
    requires { length word.now ≤ 5 }
    ensures { result ≡ digits_value 0 word.now }
{
    let mut value = 0;
    for b in word {
        if !b.is_ascii_digit() {
            return None;
        }
        value = 10 * value + u32::from(b - b'0');
    }
    Some(value)
}

/// The basis index that a word writes in one bit for each qubit, qubit 0 first.
pub fn basis_index(word: &[u8], qubits: QubitCount<16>) -> Option<u32>
    ensures equals { result ≡ index_of qubits.number word.now }
    ensures reads { ReadsIndex qubits.number word.now result }
{
    if word.len() != qubits.number as usize {
        return None;
    }
    let mut value = 0;
    for b in word {
        value = match b {
            b'0' => 2 * value,
            b'1' => 2 * value + 1,
            _ => return None,
        };
    }
    Some(value)
}
