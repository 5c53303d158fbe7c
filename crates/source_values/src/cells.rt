//! Blocks of cells.

ghost use Rattle.std.specs.Prelude.{◌≡◌, ◌+◌, ◌*◌, ◌≤◌, ◌<◌, [], ◌++◌, length, pos, true, option_map, replicate, IfOk};
ghost use Rattle.source_values.specs.Halts.{Gives};
ghost use Rattle.source_values.specs.Tags.{tag_of};
ghost use Rattle.source_values.specs.Values as spec;
ghost use Rattle.source_values.specs.declared.values.Tag.TheVariants as tag;
ghost use Rattle.typed_core.specs.SourceValues.{Block as Plain, Value as Cell, cells_with, blocks_with};

use crate::halt::Halt;
use crate::values::{Tag, Value};
use std::alloc::{AllocError, Global};
use std::marker::Model;

/// The greatest size of a store.
pub const MOST_WORDS: u64 = 67_108_864;

/// An array or a tuple.
#[derive(Drop)]
pub struct Block {
    descriptor: u64,
    cells: Vec<Value>,
}

impl Model for Block {
    ghost use Rattle.typed_core.specs.SourceValues as values;

    ghost Value = { values.Block };

    ghost view = { λ block. record { descriptor = block.descriptor; cells = block.cells.items } };
}

impl Block {
    /// The block of a descriptor with these cells.
    fn new(descriptor: u64, cells: Vec<Value>) -> Block
        ensures { result ≡ record { descriptor = descriptor; cells = cells.items } }
    {
        Block { descriptor, cells }
    }

    /// The cells, in order.
    pub fn cells(&self) -> &[Value]
        ensures { result.now ≡ self.now.cells }
    {
        self.cells.as_slice()
    }

    /// The cell of this index gets another word.
    fn write(&mut self, index: usize, word: &i64)
        requires { index < length self.old.cells }
        ensures { self.new ≡ record self.old { cells = cells_with self.old.cells index word.now } }
    {
        write_cell(self.cells.as_mut_slice(), index, word)
    }
}

/// The cell of this index gets another word.
#[tactic(auto, using(crate::proofs::WrittenCells::cell_written))]
fn write_cell(cells: &mut [Value], index: usize, word: &i64)
    requires { index < length cells.old }
    ensures { cells.new ≡ cells_with cells.old index word.now }
{
    let written = cells[index].with_word(word);
    cells[index] = written;
}

/// The element that a word names.
fn at_word<'a, T>(elements: &'a [T], word: &i64) -> Option<&'a T>
    ensures { option_map (λ x. x.now) result ≡ spec.at_word elements.now word.now }
{
    match usize::try_from(*word) {
        Ok(at) => elements.get(at),
        Err(_) => None,
    }
}

/// The blocks of a run, and how many words they may take: each takes two and its cells.
#[derive(Drop)]
pub struct Store {
    blocks: Vec<Block>,
    used: u64,
    heap: u64,
}

impl Model for Store {
    ghost use Rattle.std.specs.Prelude.{◌≡◌, ◌≤◌};
    ghost use Rattle.typed_core.specs.SourceValues as values;

    ghost Value = { values.Blocks };

    ghost view = { λ store. record { blocks = store.blocks.items; heap = store.heap } };

    ghost invariant = { λ store. (store.used ≡ values.used store.blocks.items) × (store.used ≤ store.heap) × (store.heap ≤ 67_108_864) };
}

impl Store {
    /// No block, and room for so many words. It takes no memory.
    pub fn new(alloc: Global, heap: u64) -> Store
        requires { heap ≤ 67_108_864 }
        ensures { result ≡ record { blocks = []; heap = heap } }
    {
        Store {
            blocks: Vec::new(alloc),
            used: 0,
            heap,
        }
    }

    /// Where memory comes from.
    pub fn allocator(&self) -> &Global {
        self.blocks.allocator()
    }

    /// The block that a word names.
    fn block(&self, word: &i64) -> Option<&Block>
        ensures { option_map (λ block. block.now) result ≡ spec.found_block self.now word.now }
    {
        at_word(self.blocks.as_slice(), word)
    }

    /// Whether there is room for so many words more.
    fn has_room(&self, count: u64) -> bool
        ensures { result ≡ spec.has_room count self.now }
    {
        count <= self.heap - self.used
    }

    /// The length of an array.
    pub fn measure(&self, array: &Value) -> Result<Value, Halt>
        ensures { Gives (λ v. v) result (spec.measured self.now array.now) }
    {
        let Some(a) = array.word_in(Tag::Array) else {
            return Err(Halt::Stuck);
        };
        let Some(block) = self.block(&a) else {
            return Err(Halt::Stuck);
        };
        Ok(Value::number(&(block.cells().len() as i64)))
    }

    /// A cell of an array.
    pub fn load(&self, array: &Value, index: &Value) -> Result<Value, Halt>
        ensures { Gives (λ v. v) result (spec.loaded self.now array.now index.now) }
    {
        let Some(a) = array.word_in(Tag::Array) else {
            return Err(Halt::Stuck);
        };
        let Some(i) = index.word_in(Tag::Number) else {
            return Err(Halt::Stuck);
        };
        let Some(block) = self.block(&a) else {
            return Err(Halt::Stuck);
        };
        match at_word(block.cells(), &i) {
            Some(cell) => Ok(cell.copy()),
            None => Err(Halt::Stuck),
        }
    }

    /// A block comes behind the others; its value, by its number.
    fn add(&mut self, tag: Tag, block: Block) -> Result<Value, Halt>
        requires { spec.has_room (length block.cells + 2) self.old ≡ true }
        ensures { Gives (λ v. (v, self.new)) result (spec.made_if true (tag_of tag) block self.old) }
    {
        let number = self.blocks.len() as i64;
        let words = block.cells().len() as u64 + 2;
        let Ok(()) = self.blocks.push(block) else {
            return Err(Halt::Memory);
        };
        self.used += words;
        Ok(Value::new(tag, &number))
    }

    /// A tuple of a type.
    pub fn make_tuple(&mut self, ty: u32, parts: Vec<Value>) -> Result<Value, Halt>
        ensures { Gives (λ v. (v, self.new)) result (spec.tuple_made ty parts.items self.old) }
    {
        if !self.has_room(parts.len() as u64 + 2) {
            return Err(Halt::NoStore);
        }
        self.add(Tag::Tuple, Block::new(2 * u64::from(ty) + 1, parts))
    }

    /// An array of these numbers.
    pub fn make_numbers(&mut self, cells: Vec<Value>) -> Result<Value, Halt>
        ensures { Gives (λ v. (v, self.new)) result
            (spec.made_if (spec.has_room (length cells.items + 2) self.old) (tag_of tag.Array) (record { descriptor = 0; cells = cells.items }) self.old) }
    {
        if !self.has_room(cells.len() as u64 + 2) {
            return Err(Halt::NoStore);
        }
        self.add(Tag::Array, Block::new(0, cells))
    }

    /// An array of cells of a type, each of which is the fill.
    pub fn make_array(&mut self, cells: u32, count: &Value, fill: &Value) -> Result<Value, Halt>
        ensures { Gives (λ v. (v, self.new)) result (spec.array_made cells count.now fill.now self.old) }
    {
        let Some(count) = count.word_in(Tag::Number) else {
            return Err(Halt::Stuck);
        };
        let Ok(count) = u64::try_from(count) else {
            return Err(Halt::Stuck);
        };
        if !self.has_room(count + 2) {
            return Err(Halt::NoStore);
        }
        let filled = repeated(*self.blocks.allocator(), count as usize, fill)?;
        self.add(Tag::Array, Block::new(2 * u64::from(cells), filled))
    }

    /// Whether there is such a cell, and the value is of its kind.
    fn takes(&self, at: usize, index: usize, value: &Value) -> bool
        ensures { result ≡ spec.takes self.now at index value.now }
    {
        let Some(block) = self.blocks.get(at) else {
            return false;
        };
        match block.cells().get(index) {
            Some(cell) => value.is_like(cell),
            None => false,
        }
    }

    /// A cell that there is gets another word.
    fn write(&mut self, at: usize, index: usize, word: &i64)
        requires { (value : Cell) × (spec.takes self.old at index value ≡ true) }
        ensures { self.new ≡ spec.written self.old at index word.now }
    {
        self.blocks[at].write(index, word);
    }

    /// The value goes to a cell of a block.
    fn put_at(&mut self, array: &i64, index: &i64, value: &Value) -> Result<(), Halt>
        ensures { Gives (λ _. self.new) result (spec.put_at self.old array.now index.now value.now) }
    {
        let Ok(at) = usize::try_from(*array) else {
            return Err(Halt::Stuck);
        };
        let Ok(index) = usize::try_from(*index) else {
            return Err(Halt::Stuck);
        };
        if !self.takes(at, index, value) {
            return Err(Halt::Stuck);
        }
        self.write(at, index, value.word());
        Ok(())
    }

    /// The value goes to a cell of an array.
    pub fn put(&mut self, array: &Value, index: &Value, value: &Value) -> Result<(), Halt>
        ensures { Gives (λ _. self.new) result (spec.put self.old array.now index.now value.now) }
    {
        let Some(a) = array.word_in(Tag::Array) else {
            return Err(Halt::Stuck);
        };
        let Some(i) = index.word_in(Tag::Number) else {
            return Err(Halt::Stuck);
        };
        self.put_at(&a, &i, value)
    }

    /// The first so many parts of a tuple.
    pub fn parts(&self, count: usize, tuple: &Value) -> Result<&[Value], Halt>
        ensures { Gives (λ parts. parts.now) result (spec.parts_of count tuple.now self.now) }
    {
        let Some(t) = tuple.word_in(Tag::Tuple) else {
            return Err(Halt::Stuck);
        };
        let Some(block) = self.block(&t) else {
            return Err(Halt::Stuck);
        };
        if count > block.cells().len() {
            return Err(Halt::Stuck);
        }
        Ok(&block.cells()[..count])
    }
}

/// So many equal values.
#[tactic(auto, using(crate::proofs::Unset::replicate_more))]
fn repeated(alloc: Global, count: usize, value: &Value) -> Result<Vec<Value>, AllocError>
    ensures { IfOk result (λ made. made.items ≡ replicate count value.now) }
{
    let mut made = Vec::new(alloc);
    for _turn in 0..count {
        made.push(value.copy())?;
    }
    Ok(made)
}
