//! A head as five words: its epoch, and its link in four parts of eight bytes, big endian.
ghost use Rattle.std.specs.Prelude.{◌≡◌, ℕ, slice_index, ◌+◌, ◌≤◌, ◌<◌, ◌++◌, length};
ghost use Rattle.coniks_threads.specs.HeadWords.{word_at, words_of, head_in_words};

use coniks_proof::{Digest, Head};

/// Returns the five words of a head, which determine it.
pub(crate) fn head_words(head: &Head) -> [u64; 5]
    ensures words { result ≡ words_of head.now }
    ensures back { head_in_words result ≡ head.now }
{
    let link = head.link.0;
    known(&link);
    [
        head.epoch,
        word(&link, 0),
        word(&link, 8),
        word(&link, 16),
        word(&link, 24),
    ]
}

/// Returns the head of five words.
pub(crate) fn head_from(words: &[u64; 5]) -> Head
    ensures { result ≡ head_in_words words.now }
{
    Head {
        epoch: words[0],
        link: Digest(joined(
            words[1].to_be_bytes().as_slice(),
            words[2].to_be_bytes().as_slice(),
            words[3].to_be_bytes().as_slice(),
            words[4].to_be_bytes().as_slice(),
        )),
    }
}

/// Proves that there are 32 bytes, each less than 256.
fn known(bytes: &[u8; 32])
    ensures { (length bytes.now ≡ 32) × ((i : ℕ) → slice_index bytes.now i < 256) }
{
    known_bytes(bytes);
}

/// Proves that each byte is less than 256.
fn known_bytes(bytes: &[u8])
    ensures { (i : ℕ) → slice_index bytes.now i < 256 }
{
    let _length = bytes.len();
}

/// Returns the word of eight bytes, the most significant first.
fn word(link: &[u8; 32], at: usize) -> u64
    requires { at + 8 ≤ 32 }
    ensures { result ≡ word_at link.now at }
{
    u64::from_be_bytes([
        link[at],
        link[at + 1],
        link[at + 2],
        link[at + 3],
        link[at + 4],
        link[at + 5],
        link[at + 6],
        link[at + 7],
    ])
}

/// Returns four times eight bytes, one after another.
fn joined(a: &[u8], b: &[u8], c: &[u8], d: &[u8]) -> [u8; 32]
    requires { (length a.now ≡ 8) × (length b.now ≡ 8) × (length c.now ≡ 8) × (length d.now ≡ 8) }
    ensures { result ≡ a.now ++ (b.now ++ (c.now ++ d.now)) }
{
    [
        a[0], a[1], a[2], a[3], a[4], a[5], a[6], a[7], b[0], b[1], b[2], b[3], b[4], b[5], b[6],
        b[7], c[0], c[1], c[2], c[3], c[4], c[5], c[6], c[7], d[0], d[1], d[2], d[3], d[4], d[5],
        d[6], d[7],
    ]
}
