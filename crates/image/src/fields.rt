// An image's two fields, each a tag of one byte, a length of two and a body: whether they are there, the
// tree that they hold, and how they are written. The bytes are a slice and no array of 136: C lends a slice
// of any length, and `is_image` says whether it is one.
ghost use Rattle.std.specs.Prelude.{◌≡◌, ◌∷◌, ◌+◌, ◌≤◌, length};
ghost use Rattle.bits.specs.Bytes.{number_in, to_bytes, bytes_of};
ghost use Rattle.bits.specs.Buffers.{put_at};
ghost use Rattle.image.specs.Image.{image_of, is_image, headed, words_in, held_in};

use std::array::from_fn;
use tree::Tree;

// The bytes of an image, and where its parts begin.
pub(crate) const LENGTH: usize = 136;

const WORDS: usize = 3;

const SECOND: usize = 131;

const SUMMARY: usize = 134;

// ---- reading

// Whether the bytes are an image: so many of them, and both headers where they belong.
#[tactic(auto, unfolding(crate::specs::Image::is_image))]
pub(crate) fn is_image(image: &[u8]) -> bool
    ensures { result ≡ is_image image.now }
{
    image.len() == LENGTH && has_header(image, 0, 32, 128) && has_header(image, SECOND, 33, 2)
}

// Whether a header with this tag and this length stands at offset `at`.
fn has_header(image: &[u8], at: usize, tag: u8, size: u16) -> bool
    requires { at + 3 ≤ length image.now }
    ensures { result ≡ headed image.now at tag size }
{
    image[at] == tag && two_at(image, at + 1) == size
}

// The number in the two bytes from offset `at` on, low byte first.
fn two_at(image: &[u8], at: usize) -> u16
    requires { at + 2 ≤ length image.now }
    ensures { result ≡ number_in 2 image.now at }
{
    u16::from_le_bytes([image[at], image[at + 1]])
}

// The tree that the bytes hold, sound or not: with their summary, and with the mark of full words and
// the count that are the words' own.
pub(crate) fn held(image: &[u8]) -> Tree
    requires { length image.now ≡ 136 }
    ensures { result ≡ held_in image.now }
{
    let words = words_in(image);
    let summary = two_at(image, SUMMARY);
    Tree::holding(words).with_summary(summary)
}

fn words_in(image: &[u8]) -> [u64; 16]
    requires { length image.now ≡ 136 }
    ensures { result ≡ words_in image.now }
{
    let (parts, _) = image[WORDS..SECOND].as_chunks::<8>();
    from_fn(|i| u64::from_le_bytes(parts[i]))
}

// ---- writing

// Writes the image of the tree over all the bytes.
pub(crate) fn put(image: &mut [u8], map: Tree)
    requires { length image.old ≡ 136 }
    ensures { image.new ≡ image_of map }
{
    let words = map.words();
    let summary = map.summary();
    put_header(image, 0, 32, 128);
    put_words(image, &words);
    put_header(image, SECOND, 33, 2);
    put_two(image, SUMMARY, summary);
}

fn put_header(image: &mut [u8], at: usize, tag: u8, size: u16)
    requires { at + 3 ≤ length image.old }
    ensures { image.new ≡ put_at image.old at (tag ∷ to_bytes 2 size) }
{
    image[at] = tag;
    put_two(image, at + 1, size);
}

// Puts the number into the two bytes from offset `at` on, low byte first.
fn put_two(image: &mut [u8], at: usize, n: u16)
    requires { at + 2 ≤ length image.old }
    ensures { image.new ≡ put_at image.old at (to_bytes 2 n) }
{
    image[at..at + 2].copy_from_slice(&n.to_le_bytes());
}

// By an offset, and not part by part: of what `as_chunks_mut` or `chunks_exact_mut` lends, the library does
// not say what the bytes end as.
fn put_words(image: &mut [u8], words: &[u64])
    requires { (length image.old ≡ 136) × (length words.now ≡ 16) }
    ensures { image.new ≡ put_at image.old 3 (bytes_of 8 words.now) }
{
    for (i, word) in words.iter().enumerate() {
        let at = WORDS + 8 * i;
        image[at..at + 8].copy_from_slice(&word.to_le_bytes());
    }
}
