// Text that people read, put together on a page of fixed memory, or put at a place of lent bytes: inner workings of what prints, each
// with a `requires` for room.
#![tactic(auto)]

ghost use Rattle.std.specs.Prelude.{◌≡◌, ◌<◌, List, ℕ, [], ◌∷◌, ◌++◌, map, length};
ghost use Rattle.text.specs.Text.{decimal, joined};
ghost use Rattle.text.specs.Promises.{Fits, FitsAt, PutAt};

use arrayvec::ArrayVec;
use std::marker::Model;

// Text of at most N bytes, as far as it is written.
#[derive(Drop)]
pub struct Page<const N: usize> {
    bytes: ArrayVec<u8, N>,
}

impl<const N: usize> Model for Page<N> {
    ghost Value = { List ℕ };

    ghost view = { λ page. page.bytes.items };
}

impl<const N: usize> Page<N> {
    // A page with nothing on it.
    pub fn new() -> Self
        ensures { result ≡ [] }
    {
        Page {
            bytes: ArrayVec::new(),
        }
    }

    // What is written so far.
    pub fn as_slice(&self) -> &[u8]
        ensures { result.now ≡ self.now }
    {
        self.bytes.as_slice()
    }

    // Writes bytes behind what is there.
    pub fn put(&mut self, bytes: &[u8])
        requires { Fits bytes.now self.old N }
        ensures { self.new ≡ self.old ++ bytes.now }
    {
        self.bytes.try_extend_from_slice(bytes).unwrap();
    }

    // Writes a word and the byte that follows it.
    pub fn put_word(&mut self, word: &[u8], end: u8)
        requires { Fits (word.now ++ (end ∷ [])) self.old N }
        ensures { self.new ≡ self.old ++ (word.now ++ (end ∷ [])) }
    {
        self.put(word);
        self.bytes.push(end);
    }

    // Writes a number in decimal and the byte that follows it.
    #[tactic(auto, using(crate::proofs::Decimals::digits_are))]
    pub fn put_decimal(&mut self, v: usize, end: u8)
        requires { Fits (decimal v ++ (end ∷ [])) self.old N }
        ensures { self.new ≡ self.old ++ (decimal v ++ (end ∷ [])) }
    {
        // `io::decimal` fills a buffer and says how much of it
        let mut digits = [0u8; 20];
        let n = io::decimal(v as u64, &mut digits);
        self.put_word(&digits[..n], end);
    }

    // Writes numbers with a byte between every two and another behind the last.
    pub fn put_numbers(&mut self, numbers: &[u32], between: u8, end: u8)
        requires some { 0 < length numbers.now }
        requires room { Fits (joined between (end ∷ []) (map decimal numbers.now)) self.old N }
        ensures { self.new ≡ self.old ++ joined between (end ∷ []) (map decimal numbers.now) }
    {
        let (last, front) = numbers.split_last().unwrap();
        for number in front {
            self.put_decimal(*number as usize, between);
        }
        self.put_decimal(*last as usize, end);
    }
}

// Writes bytes at `at` and on; where they end.
pub fn put_bytes(out: &mut [u8], at: usize, bytes: &[u8]) -> usize
    requires { FitsAt bytes.now at out.old }
    ensures { PutAt bytes.now at out.old result out.new }
{
    let end = at + bytes.len();
    out[at..end].copy_from_slice(bytes);
    end
}

// Writes a word and the byte that follows it.
pub fn put_word(out: &mut [u8], at: usize, word: &[u8], end: u8) -> usize
    requires { FitsAt (word.now ++ (end ∷ [])) at out.old }
    ensures { PutAt (word.now ++ (end ∷ [])) at out.old result out.new }
{
    let p = put_bytes(out, at, word);
    out[p] = end;
    p + 1
}

// Writes a number in decimal and the byte that follows it.
#[tactic(auto, using(crate::proofs::Decimals::digits_are))]
pub fn put_decimal(out: &mut [u8], at: usize, v: usize, end: u8) -> usize
    requires { FitsAt (decimal v ++ (end ∷ [])) at out.old }
    ensures { PutAt (decimal v ++ (end ∷ [])) at out.old result out.new }
{
    let mut digits = [0u8; 20];
    let n = io::decimal(v as u64, &mut digits);
    put_word(out, at, &digits[..n], end)
}

// Writes numbers with a byte between every two and another behind the last.
pub fn put_numbers(out: &mut [u8], at: usize, numbers: &[u32], between: u8, end: u8) -> usize
    requires some { 0 < length numbers.now }
    requires room { FitsAt (joined between (end ∷ []) (map decimal numbers.now)) at out.old }
    ensures { PutAt (joined between (end ∷ []) (map decimal numbers.now)) at out.old result out.new }
{
    let (last, front) = numbers.split_last().unwrap();
    let mut p = at;
    for number in front {
        p = put_decimal(out, p, *number as usize, between);
    }
    put_decimal(out, p, *last as usize, end)
}
