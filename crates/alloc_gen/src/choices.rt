//! The lists of a made problem, from the words of its seed.

ghost use Rattle.std.specs.Prelude.{◌≡◌, ◌+◌, ◌<◌, ◌≤◌, ◌^◌, length, map, IfOk, OnOk};
ghost use Rattle.std.specs.List.{range_with_len};
ghost use Rattle.rand_chacha.specs.ChaCha.{word_at};
ghost use Rattle.alloc_gen.specs.MadeLists.{list_size, made_list, made_lists, shuffled};
ghost use Rattle.alloc_gen.specs.Words.{seed_words, words_from};

use rand_chacha::ChaCha20Rng;
use rand_core::SeedableRng;
use rand_core::utils::NextWord;
use std::alloc::{AllocError, Global};

/// The most objects that a list has.
const MOST_CHOICES: u32 = 5;

// The lists of so many agents over so many objects.
pub fn make_lists(
    alloc: Global,
    seed: [u8; 32],
    agents: u32,
    objects: u32,
) -> Result<Vec<Vec<u32>>, AllocError>
    requires { agents ≤ 1000 }
    ensures { IfOk result (λ lists. map (λ list. list.items) lists.items
        ≡ made_lists (seed_words seed) agents objects) }
{
    let mut words = ChaCha20Rng::from_seed(seed);
    let mut lists = Vec::new(alloc);
    for _agent in 0..agents {
        let list = make_list(alloc, &mut words, objects)?;
        lists.push(list)?;
    }
    Ok(lists)
}

// The list of the next agent.
fn make_list(alloc: Global, words: &mut ChaCha20Rng, objects: u32) -> Result<Vec<u32>, AllocError>
    requires { words.old.word_pos + 5 < 2 ^ 68 }
    ensures list { IfOk result (λ list. list.items
        ≡ made_list (words_from (word_at 10 words.old.key words.old.stream) words.old.word_pos)
        objects) }
    ensures moved { OnOk result (words.new
        ≡ record words.old { word_pos = words.old.word_pos + list_size objects }) }
{
    let mut order = all_columns(alloc, objects)?;
    let size = objects.min(MOST_CHOICES) as usize;
    exchange(&mut order, size, words);
    order.truncate(size);
    order.push(objects)?;
    Ok(order)
}

// The columns of so many objects in order.
fn all_columns(alloc: Global, objects: u32) -> Result<Vec<u32>, AllocError>
    ensures { IfOk result (λ order. order.items ≡ range_with_len 0 objects) }
{
    let mut order = Vec::new(alloc);
    for column in 0..objects {
        order.push(column)?;
    }
    Ok(order)
}

// So many exchanges of columns in order, each by the next word.
fn exchange(order: &mut [u32], times: usize, words: &mut ChaCha20Rng)
    requires start { order.old ≡ range_with_len 0 (length order.old) }
    requires within { times ≤ length order.old }
    requires room { words.old.word_pos + times < 2 ^ 68 }
    ensures order { order.new
        ≡ shuffled (words_from (word_at 10 words.old.key words.old.stream) words.old.word_pos)
        (length order.old) times }
    ensures moved { words.new ≡ record words.old { word_pos = words.old.word_pos + times } }
{
    for place in 0..times {
        let word = take_word(words);
        let other = place + word as usize % (order.len() - place);
        order.swap(place, other);
    }
}

// The next word.
fn take_word(words: &mut ChaCha20Rng) -> u32
    requires { words.old.word_pos + 1 < 2 ^ 68 }
    ensures value { result ≡ word_at 10 words.old.key words.old.stream words.old.word_pos }
    ensures moved { words.new ≡ record words.old { word_pos = words.old.word_pos + 1 } }
{
    words.next_word()
}
