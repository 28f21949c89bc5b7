// Words in bytes, most significant first.
ghost use Rattle.std.specs.Prelude.{◌≡◌, IfOk};
ghost use Rattle.words.specs.Bytes.{word_list};

use std::alloc::{AllocError, Global};

// The whole words of the bytes. One to three bytes left over are no word.
pub fn be_words(heap: Global, bytes: &[u8]) -> Result<Vec<u32>, AllocError>
    ensures { IfOk result (λ words. words.items ≡ word_list bytes.now) }
{
    let (words, _left) = bytes.as_chunks::<4>();
    words
        .iter()
        .map(|word| u32::from_be_bytes(*word))
        .collect(heap)
}
