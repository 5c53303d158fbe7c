//! The store: blocks from address 0 on, each a descriptor, a length and its cells.

ghost use Rattle.std.specs.Prelude.{◌≡◌, ℕ, ◌+◌, ◌*◌, ◌≤◌, ◌<◌, ◌≤ℤ◌, ◌^◌, ℤ, pos, true, List, [], ◌∷◌, ◌++◌, take, drop, length, nat_le, slice_get, slice_set, Some, IfNone, option_map};
ghost use Rattle.operation_rules.specs.Effects.{Writes, effect};
ghost use Rattle.operation_rules.specs.FlatWords.{flat_words, is_whole};
ghost use Rattle.operation_rules.specs.declared.operation.Operation.TheVariants as operation;
ghost use Rattle.dtal_machine.specs.Placing.{block_placed};
ghost use Rattle.dtal_machine.specs.Acting.{flat, HasRoom, NotStuck, given_block};

/// The used words, and how many there may be.
#[derive(Drop)]
pub(crate) struct Store {
    pub(crate) words: Vec<i64>,
    pub(crate) heap: u64,
}

/// Whether there is room for a block of so many cells.
fn has_room(store: &Store, cells: u64) -> bool
    requires room { HasRoom store.now }
    requires small { cells < 2 ^ 63 }
    ensures { result ≡ nat_le (length store.now.words.items + (cells + 2)) store.now.heap }
{
    cells + 2 <= store.heap - store.words.len() as u64
}

// A word that is no negative number, as one that counts words.
fn offset(word: i64) -> usize
    requires { pos 0 ≤ℤ word }
    ensures { word ≡ pos result }
{
    word as usize
}

// A word of the store.
fn word_at(words: &[i64], index: usize) -> i64
    requires { index < length words.now }
    ensures { slice_get words.now index ≡ Some result }
{
    words[index]
}

// So many words of the store.
fn words_at(words: &[i64], first: usize, count: usize) -> &[i64]
    requires { first + count ≤ length words.now }
    ensures words { result.now ≡ take count (drop first words.now) }
    ensures count { length result.now ≡ count }
{
    &words[first..first + count]
}

// Writes a word of the store.
fn set_word(words: &mut [i64], index: usize, word: i64)
    requires { index < length words.old }
    ensures { words.new ≡ slice_set words.old index word }
{
    words[index] = word;
}

/// The length of a block.
pub(crate) fn length_of(store: &Store, address: i64) -> i64
    requires room { HasRoom store.now }
    requires there { NotStuck (effect flat_words operation.Length (address ∷ []) (flat store.now)) }
    ensures { effect flat_words operation.Length (address ∷ []) (flat store.now) ≡ Writes (result ∷ []) (flat store.now) }
{
    word_at(store.words.as_slice(), offset(address) + 1)
}

/// A cell of a block.
pub(crate) fn cell(store: &Store, address: i64, index: i64) -> i64
    requires room { HasRoom store.now }
    requires there { NotStuck (effect flat_words operation.Load (address ∷ index ∷ []) (flat store.now)) }
    ensures { effect flat_words operation.Load (address ∷ index ∷ []) (flat store.now) ≡ Writes (result ∷ []) (flat store.now) }
{
    word_at(store.words.as_slice(), offset(address) + 2 + offset(index))
}

/// Writes a cell of a block.
pub(crate) fn set_cell(store: &mut Store, address: i64, index: i64, word: i64)
    requires room { HasRoom store.old }
    requires whole { is_whole store.old.words.items ≡ true }
    requires there { NotStuck (effect flat_words operation.Store (address ∷ index ∷ word ∷ []) (flat store.old)) }
    ensures written { effect flat_words operation.Store (address ∷ index ∷ word ∷ []) (flat store.old) ≡ Writes [] (flat store.new) }
    ensures room { HasRoom store.new }
    ensures heap { store.new.heap ≡ store.old.heap }
{
    let place = offset(address) + 2 + offset(index);
    set_word(store.words.as_mut_slice(), place, word);
}

/// The cells of a tuple, so many of them.
pub(crate) fn parts(store: &Store, number: u32, count: u8, address: i64) -> &[i64]
    requires room { HasRoom store.now }
    requires whole { is_whole store.now.words.items ≡ true }
    requires there { NotStuck (effect flat_words (operation.Untuple number count) (address ∷ []) (flat store.now)) }
    ensures parts { effect flat_words (operation.Untuple number count) (address ∷ []) (flat store.now) ≡ Writes result.now (flat store.now) }
    ensures count { length result.now ≡ count }
{
    words_at(
        store.words.as_slice(),
        offset(address) + 2,
        usize::from(count),
    )
}

/// A new array of so many equal cells, by its address, or nothing where there is no room.
pub(crate) fn make_array(store: &mut Store, cells: u32, count: i64, word: i64) -> Option<i64>
    requires room { HasRoom store.old }
    requires goes { NotStuck (effect flat_words (operation.New cells) (count ∷ word ∷ []) (flat store.old)) }
    ensures made { effect flat_words (operation.New cells) (count ∷ word ∷ []) (flat store.old) ≡ given_block result (flat store.new) }
    ensures same { IfNone result (flat store.new ≡ flat store.old) }
    ensures room { HasRoom store.new }
    ensures heap { store.new.heap ≡ store.old.heap }
{
    let count = offset(count);
    if !has_room(store, count as u64) {
        return None;
    }
    let address = store.words.len();
    put_header(store, 2 * i64::from(cells), count as i64);
    let Ok(()) = store.words.resize(address + 2 + count, word) else {
        unreachable!()
    };
    Some(address as i64)
}

/// A block of these cells, by its address, or nothing where there is no room.
pub(crate) fn put_block(store: &mut Store, descriptor: u64, cells: &[i64]) -> Option<i64>
    requires room { HasRoom store.old }
    requires small { descriptor < 2 ^ 40 }
    ensures placed { block_placed descriptor cells.now (flat store.old) ≡ option_map (λ address. (address, flat store.new)) result }
    ensures same { IfNone result (flat store.new ≡ flat store.old) }
    ensures room { HasRoom store.new }
    ensures heap { store.new.heap ≡ store.old.heap }
{
    if !has_room(store, cells.len() as u64) {
        return None;
    }
    let address = store.words.len();
    put_header(store, descriptor as i64, cells.len() as i64);
    let Ok(()) = store.words.extend_from_slice(cells) else {
        unreachable!()
    };
    Some(address as i64)
}

/// A new tuple of these cells, by its address, or nothing where there is no room.
pub(crate) fn make_tuple(store: &mut Store, number: u32, cells: &[i64]) -> Option<i64>
    requires room { HasRoom store.old }
    ensures made { effect flat_words (operation.Tuple number) cells.now (flat store.old) ≡ given_block result (flat store.new) }
    ensures same { IfNone result (flat store.new ≡ flat store.old) }
    ensures room { HasRoom store.new }
    ensures heap { store.new.heap ≡ store.old.heap }
{
    put_block(store, 2 * u64::from(number) + 1, cells)
}

// Begins a block, for which there is room.
fn put_header(store: &mut Store, descriptor: i64, cells: i64)
    requires room { HasRoom store.old }
    requires there { length store.old.words.items + 2 ≤ store.old.heap }
    ensures header { store.new.words.items ≡ store.old.words.items ++ descriptor ∷ cells ∷ [] }
    ensures heap { store.new.heap ≡ store.old.heap }
    ensures room { HasRoom store.new }
{
    let Ok(()) = store.words.extend_from_slice(&[descriptor, cells]) else {
        unreachable!()
    };
}
