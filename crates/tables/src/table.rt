// Block tables: slices that the caller lends, one entry of any copied kind for each block, in place order.
ghost use Rattle.std.specs.Prelude.{◌≡◌, ◌≤◌, length, OnOk};
ghost use Rattle.tables.specs.Tables.{got, put_result, put_table, fill_result, filled};

use disk::cause::*;
use disk::place::*;
use disk::refusal::*;
use sector::source::*;

// Whether a table of this length has an entry for every block.
pub(crate) fn check_length(length: usize) -> Result<(), Refusal>
    ensures answer { result ≡ fill_result length }
    ensures room { OnOk result (BLOCKS ≤ length) }
{
    if length < BLOCKS {
        return Err(Refusal::by_caller(Cause::ShortBuffer));
    }
    Ok(())
}

// The entry of a block.
pub fn get<T: Copy>(table: &[T], place: Place) -> Result<T, Refusal>
    ensures { got table.now place result }
{
    check_length(table.len())?;
    let index = block_index(place).ok_or(fault_at(Cause::NoSuchBlock, place))?;
    Ok(table[index])
}

// Makes `value` the entry of a block.
pub fn put<T: Copy>(table: &mut [T], place: Place, value: T) -> Result<(), Refusal>
    ensures answer { result ≡ put_result (length table.old) place }
    ensures after { table.new ≡ put_table table.old place value }
{
    check_length(table.len())?;
    let index = block_index(place).ok_or(fault_at(Cause::NoSuchBlock, place))?;
    table[index] = value;
    Ok(())
}

// Makes `value` the entry of every block; entries past them stay.
pub fn fill<T: Copy>(table: &mut [T], value: T) -> Result<(), Refusal>
    ensures answer { result ≡ fill_result (length table.old) }
    ensures after { table.new ≡ filled table.old value }
{
    check_length(table.len())?;
    for entry in &mut table[..BLOCKS] {
        *entry = value;
    }
    Ok(())
}
