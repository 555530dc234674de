// Lent lists of 16-bit words: a word read, put, cleared, copied. A word past the end counts as 0,
// so no read needs a check before it. And the rest of any list.
#![tactic(auto)]

ghost use Rattle.std.specs.Prelude.{◌≡◌, ◌+◌, ◌≤◌, length, get_or, set, drop};
ghost use Rattle.std.proofs.lemmas.List.Edits.{sets};
ghost use Rattle.words.specs.Words.{part, zeros};

// The word at i. Past the end it is 0, never what lies there.
pub fn word(s: &[u16], i: usize) -> u16
    ensures { result ≡ get_or s.now i 0 }
{
    s.get(i).copied().unwrap_or(0)
}

// The word at i set to v. Past the end nothing changes, and no other word ever does.
pub fn put(s: &mut [u16], i: usize, v: u16)
    ensures { s.new ≡ set s.old i v }
{
    if i < s.len() {
        s[i] = v;
    }
}

// The words from one place up to another set to zero, and no others.
#[tactic(auto, using(crate::proofs::Stored::cleared))]
pub fn clear(s: &mut [u16], from: usize, to: usize)
    requires { (from ≤ to) × (to ≤ length s.old) }
    ensures { s.new ≡ zeros from to s.old }
{
    s[from..to].fill(0);
}

// Copies n words of one slice, from `from` on, to another, from `at` on. No other word changes.
#[tactic(auto, using(crate::proofs::Stored::copied))]
pub fn copy(to: &mut [u16], at: usize, words: &[u16], from: usize, n: usize)
    requires { (at + n ≤ length to.old) × (from + n ≤ length words.now) }
    ensures { to.new ≡ sets to.old at (part from n words.now) }
{
    to[at..at + n].copy_from_slice(&words[from..from + n]);
}

// So many words of a slice, from a place on.
pub fn copied<const N: usize>(words: &[u16], at: usize) -> [u16; N]
    requires { at + N ≤ length words.now }
    ensures { result ≡ part at N words.now }
{
    let mut copied = [0; N];
    copied.copy_from_slice(&words[at..at + N]);
    copied
}

// What a list has from a place on; past its end it is empty, and not the whole list.
pub fn rest<T>(list: &[T], at: usize) -> &[T]
    ensures { result.now ≡ drop at list.now }
{
    list.get(at..).unwrap_or(&[])
}

// The largest word.
pub const MOST_WORD: u64 = u16::MAX as u64;

// The bits at which the fields of packed answers begin.
pub const BIT_8: u64 = 1 << 8;

pub const BIT_16: u64 = 1 << 16;

pub const BIT_24: u64 = 1 << 24;

pub const BIT_32: u64 = 1 << 32;

pub const BIT_40: u64 = 1 << 40;

pub const BIT_48: u64 = 1 << 48;

pub const BIT_52: u64 = 1 << 52;

pub const BIT_63: u64 = 1 << 63;
