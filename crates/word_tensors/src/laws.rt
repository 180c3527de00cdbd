//! Laws of tensors and their words, as the contracts of functions that do nothing.

ghost use Rattle.word_tensors.specs.WordTensors.{IsOfWords};

/// Words make a tensor of given extents; where they are as many as the extents say, its words are these.
pub fn words_make_a_tensor(extents: &[u64], words: &[u64])
    ensures { IsOfWords extents.now words.now }
{
    let _both = extents.len() == words.len();
}
