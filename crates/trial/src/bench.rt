// The image under trial, and what is done to it.
use crate::answer::*;
use crate::script::*;
use anyhow::bail;
use disk::place::*;
use std::alloc::{AllocError, Global};
use std::iter;

#[derive(Drop)]
pub struct Bench {
    heap: Global,
    clean: Vec<u8>,
    image: Vec<u8>,
}

impl Bench {
    pub fn new(heap: Global, clean: Vec<u8>) -> Result<Bench, AllocError> {
        let image = clean.clone()?;
        Ok(Bench { heap, clean, image })
    }

    // Goes back to the clean image.
    pub fn reset(&mut self) -> Result<(), AllocError> {
        self.image = self.clean.clone()?;
        Ok(())
    }

    pub fn apply(&mut self, change: &Change) -> anyhow::Result<()> {
        let image = &mut self.image;
        match change {
            Change::Edit {
                place,
                offset,
                byte,
            } => put(image, *place, *offset, *byte),
            Change::Fill { place, byte } => fill(image, *place, *byte),
            Change::Link { from, to } => link(image, *from, *to),
            Change::Entry {
                block,
                slot,
                kind,
                first,
                name,
            } => put_entry(image, *block, *slot, *kind, *first, name.as_slice()),
            Change::Thread => thread(image),
            Change::Length(length) => Ok(image.resize(*length, 0)?),
        }
    }

    // What a copy of the image answers.
    pub fn ask(&self, question: &Question) -> Result<String, AllocError> {
        answer(self.heap, self.image.clone()?, question)
    }
}

// Sets one byte of a block. By tests, since context would carry the room of an error along for each byte.
fn put(image: &mut Vec<u8>, place: Place, offset: u8, byte: u8) -> anyhow::Result<()> {
    let Some(index) = block_index(place) else {
        bail!("no such block to change");
    };
    let Some(old) = image.get_mut(256 * index + offset as usize) else {
        bail!("no such byte to change");
    };
    *old = byte;
    Ok(())
}

// Sets every byte of a block.
fn fill(image: &mut Vec<u8>, place: Place, byte: u8) -> anyhow::Result<()> {
    for offset in 0..=255 {
        put(image, place, offset, byte)?;
    }
    Ok(())
}

fn link(image: &mut Vec<u8>, from: Place, to: Place) -> anyhow::Result<()> {
    put(image, from, 0, to.0)?;
    put(image, from, 1, to.1)
}

// Sets the type, the first block and the padded name of an entry.
fn put_entry(
    image: &mut Vec<u8>,
    block: Place,
    slot: u8,
    kind: u8,
    first: Place,
    name: &[u8],
) -> anyhow::Result<()> {
    let at = 32 * (slot % 8);
    put(image, block, at + 2, kind)?;
    put(image, block, at + 3, first.0)?;
    put(image, block, at + 4, first.1)?;
    let padded = name.iter().copied().chain(iter::repeat(0xa0));
    for (offset, byte) in (at + 5..at + 21).zip(padded) {
        put(image, block, offset, byte)?;
    }
    Ok(())
}

// Links all blocks off track 18 in place order; the last is full.
fn thread(image: &mut Vec<u8>) -> anyhow::Result<()> {
    let mut next = (0, 255);
    let places = (0..BLOCKS).rev().filter_map(block_place);
    for place in places.filter(|place| place.0 != 18) {
        link(image, place, next)?;
        next = place;
    }
    Ok(())
}
