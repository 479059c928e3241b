// Images: those of some maps byte for byte, what write and read answer, and the calls for C. A buffer is one byte longer than
// an image, and a call is lent its first bytes: how many stands beside the buffer, since more of it is shown. After the answer
// stands how many bytes of the buffer are then others than before, or the map that was read.
ghost use Rattle.std.specs.Prelude.{◌<◌, ◌≤◌};

use crate::asked::{Told, on};
use crate::calls::Shown;
use crate::edges::tree_with;
use crate::{names, show, trees};
use answers::Reply;
use image::ImageRefusal;
use std::io;
use tree::Tree;

// ---- buffers

type Buffer = [u8; 137];

const NEW: Buffer = [85; 137];

// The map's image, in a new buffer.
fn image_of(map: Tree) -> Buffer {
    let mut bytes = NEW;
    // The maps that are shown so are sound.
    let _ = image::write(map, &mut bytes[..136]);
    bytes
}

// The same bytes, but for one at offset `at`.
fn with_byte(bytes: Buffer, at: usize, byte: u8) -> Buffer
    requires { at < 137 }
{
    let mut others = bytes;
    others[at] = byte;
    others
}

// The image with its second field first. `rotate_left` of its first 136 bytes was tried, and so were `rotate_right` and two
// copies of slices: their proofs did not close.
fn exchanged(bytes: Buffer) -> Buffer {
    let mut others = bytes;
    for (i, byte) in others.iter_mut().enumerate().take(136) {
        *byte = bytes[(i + 131) % 136];
    }
    others
}

// ---- parts of a line

fn answer(rt: &impl Print, said: Result<(), ImageRefusal>) -> io::Result<()> {
    let said = said.map(|_| Reply::Done);
    show::answer(rt, said.map_err(|why| why.number()))
}

// To the end of the line.
fn changed(rt: &impl Print, before: Buffer, after: Buffer) -> io::Result<()> {
    let count = before.iter().zip(&after).filter(|(b, a)| b != a).count();
    println!(rt; ", bytes changed {count}")
}

// What follows the name of what is read, to the end of the line.
fn read_from(rt: &impl Print, bytes: Buffer, size: usize) -> io::Result<()>
    requires { size ≤ 137 }
{
    let reading = image::read(&bytes[..size]);
    print!(rt; ": read, lent {size} bytes")?;
    answer(rt, reading.answer)?;
    reading.map.shown(rt)
}

// ---- lines

impl<'a, P: Print> Told<'a, P, Tree> {
    fn write(&self, size: usize) -> io::Result<()>
        requires { size ≤ 137 }
    {
        let mut after = NEW;
        let said = image::write(self.map, &mut after[..size]);
        self.ask("write")?;
        print!(self.rt; ", lent {size} bytes")?;
        answer(self.rt, said)?;
        changed(self.rt, NEW, after)
    }
}

impl<'a, P: Print> Told<'a, P, Buffer> {
    fn listed(&self) -> io::Result<()> {
        let name = self.name;
        print!(self.rt; "image of the {name}:")?;
        for byte in &self.map[..136] {
            print!(self.rt; " {byte}")?;
        }
        show::text(self.rt, b"\n")
    }

    fn read(&self, size: usize) -> io::Result<()>
        requires { size ≤ 137 }
    {
        let name = self.name;
        print!(self.rt; "{name}")?;
        read_from(self.rt, self.map, size)
    }

    // With another byte at offset `at`.
    fn read_with(&self, at: usize, byte: u8) -> io::Result<()>
        requires { at < 137 }
    {
        let name = self.name;
        print!(self.rt; "{name}, byte {at} as {byte}")?;
        read_from(self.rt, with_byte(self.map, at, byte), 136)
    }

    // The map that is read is written into another buffer, and this one is held to the first.
    fn read_again(&self) -> io::Result<()> {
        self.read(136)?;
        let again = image_of(image::read(&self.map[..136]).map);
        self.ask("read and written again")?;
        changed(self.rt, self.map, again)
    }

    // What follows what is asked of C. Answers the bytes that are left, for a next call.
    fn left(&self, size: usize, said: i32, after: Buffer) -> io::Result<Buffer> {
        print!(self.rt; ", lent {size} bytes: {said}")?;
        changed(self.rt, self.map, after)?;
        Ok(after)
    }

    fn slotmap_take(&self, size: usize, n: usize, a: usize) -> io::Result<Buffer>
        requires { size ≤ 137 }
    {
        let mut after = self.map;
        let said = image::slotmap_take(&mut after[..size], n, a);
        self.ask_run("slotmap_take", n, a)?;
        self.left(size, said, after)
    }

    fn slotmap_free(&self, size: usize, start: usize, n: usize) -> io::Result<Buffer>
        requires { size ≤ 137 }
    {
        let mut after = self.map;
        let said = image::slotmap_free(&mut after[..size], start, n);
        self.ask_range("slotmap_free", start, n)?;
        self.left(size, said, after)
    }

    fn slotmap_used(&self, size: usize) -> io::Result<Buffer>
        requires { size ≤ 137 }
    {
        let said = image::slotmap_used(&self.map[..size]);
        self.ask("slotmap_used")?;
        self.left(size, said, self.map)
    }

    // Each call refuses what is no image, and then an image under a wrong summary, before all else.
    fn each_call(&self, size: usize) -> io::Result<()>
        requires { size ≤ 137 }
    {
        self.slotmap_take(size, 0, 10)?;
        self.slotmap_take(size, 1, 0)?;
        self.slotmap_free(size, 0, 0)?;
        self.slotmap_free(size, 0, 1)?;
        self.slotmap_used(size)?;
        Ok(())
    }
}

// ---- what is asked

pub fn of_maps(rt: &impl Print) -> io::Result<()> {
    on(rt, names::EMPTY_TREE, image_of(Tree::new_empty())).listed()?;
    on(rt, names::FULL_TREE, image_of(Tree::new_full())).listed()?;
    on(rt, names::TREE_WITH_SLOT_0, image_of(tree_with(0, 1))).listed()?;
    on(rt, names::TREE_WITH_SLOT_1023, image_of(tree_with(1023, 1))).listed()
}

// A map that is not sound is written into a buffer that is too short too: 16 comes before 1.
pub fn writes(rt: &impl Print) -> io::Result<()> {
    let empty = on(rt, names::EMPTY_TREE, Tree::new_empty());
    empty.write(0)?;
    empty.write(135)?;
    empty.write(137)?;
    empty.write(136)?;
    for (name, map) in trees::unsound() {
        let bad = on(rt, name, map);
        bad.write(136)?;
        bad.write(135)?;
    }
    Ok(())
}

// What is an image, and what is not: by its length, by a byte of a header, by the order of the fields. And images under a
// wrong summary, of which some are none by their length or a tag.
pub fn reads(rt: &impl Print) -> io::Result<()> {
    on(rt, names::EMPTY_IMAGE, image_of(Tree::new_empty())).read_again()?;
    on(rt, names::FULL_IMAGE, image_of(Tree::new_full())).read_again()?;
    on(
        rt,
        names::IMAGE_WITH_SLOT_1023,
        image_of(tree_with(1023, 1)),
    )
    .read_again()?;
    let bytes = image_of(tree_with(0, 1));
    let first = on(rt, names::IMAGE_WITH_SLOT_0, bytes);
    first.read_again()?;
    first.read(0)?;
    first.read(135)?;
    first.read(137)?;
    first.read_with(0, 33)?;
    first.read_with(1, 127)?;
    first.read_with(2, 1)?;
    first.read_with(131, 32)?;
    first.read_with(132, 3)?;
    first.read_with(133, 1)?;
    first.read_with(134, 3)?;
    first.read_with(135, 128)?;
    let other = names::IMAGE_WITH_SLOT_0_FIELDS_EXCHANGED;
    on(rt, other, exchanged(bytes)).read(136)?;
    let bad = with_byte(bytes, 134, 0);
    let under_none = on(rt, names::IMAGE_WITH_SLOT_0_UNDER_NO_SUMMARY, bad);
    under_none.read(136)?;
    under_none.read(135)?;
    under_none.read_with(0, 33)?;
    under_none.read_with(131, 32)
}

// The calls of document 01's record, each on the bytes that the one before left.
pub fn record(rt: &impl Print) -> io::Result<()> {
    let empty = image_of(Tree::new_empty());
    let mut record = on(rt, names::RECORD_OF_DOCUMENT_01, empty);
    record.map = record.slotmap_take(136, 3, 2)?;
    record.map = record.slotmap_take(136, 2, 0)?;
    record.map = record.slotmap_free(136, 1, 3)?;
    record.map = record.slotmap_free(136, 0, 2)?;
    record.map = record.slotmap_take(136, 4, 2)?;
    record.slotmap_used(136)?;
    record.listed()
}

// The refusals in their order, and beside some of them the call that is accepted.
pub fn refused_calls(rt: &impl Print) -> io::Result<()> {
    let empty = on(rt, names::EMPTY_IMAGE, image_of(Tree::new_empty()));
    let full = on(rt, names::FULL_IMAGE, image_of(Tree::new_full()));
    empty.slotmap_take(136, 0, 10)?;
    empty.slotmap_take(136, 1, 10)?;
    empty.slotmap_take(136, 1025, 10)?;
    empty.slotmap_take(136, 1025, 0)?;
    empty.slotmap_take(136, 1024, 9)?;
    full.slotmap_take(136, 1, 0)?;
    empty.slotmap_free(136, 0, 0)?;
    empty.slotmap_free(136, 1024, 1)?;
    empty.slotmap_free(136, 18446744073709551615, 2)?;
    empty.slotmap_free(136, 1023, 1)?;
    full.slotmap_free(136, 1023, 2)?;
    full.slotmap_free(136, 0, 1024)?;
    empty.slotmap_used(136)?;
    full.slotmap_used(136)?;
    Ok(())
}

pub fn wrong_images(rt: &impl Print) -> io::Result<()> {
    let bytes = image_of(tree_with(0, 1));
    let bad = with_byte(bytes, 134, 0);
    on(rt, names::IMAGE_WITH_SLOT_0_UNDER_NO_SUMMARY, bad).each_call(136)?;
    let other = names::IMAGE_WITH_SLOT_0_BYTE_0_AS_33;
    on(rt, other, with_byte(bytes, 0, 33)).each_call(136)?;
    let both = names::IMAGE_WITH_SLOT_0_UNDER_NO_SUMMARY_BYTE_0_AS_33;
    on(rt, both, with_byte(bad, 0, 33)).each_call(136)?;
    let first = on(rt, names::IMAGE_WITH_SLOT_0, bytes);
    first.each_call(0)?;
    first.each_call(135)?;
    first.each_call(137)
}
