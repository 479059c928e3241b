// The image of a tree map: its words and its summary as 136 bytes, for a host in C that keeps the map as
// bytes. Tag 32, length 128, the words; then tag 33, length 2, the summary; numbers low byte first.
// Write and read turn a map into an image and back. Take, free and used are for C, each on an image that
// the host lends, and answer one signed number; `image_c` exports them. What a tree stores beside its
// summary is no part of an image and is worked out from the words. Rests on `tree`.
#![tactic(auto)]

mod fields;

ghost use Rattle.std.specs.Prelude.{◌≡◌, pos, neg_ℤ, length};
ghost use Rattle.answers.specs.declared.Changed.{Changed};
ghost use Rattle.answers.specs.declared.Refusal.{Refusal};
ghost use Rattle.tree.specs.declared.Tree.{Tree};
ghost use Rattle.image.specs.declared.ImageRefusal.TheVariants.{Map};
ghost use Rattle.image.specs.ImageAnswers.{image_number_of};
ghost use Rattle.image.specs.Says.{NumberSays, WriteSays, ReadSays, TakeTells, FreeTells, UsedTells};
ghost use Rattle.image.specs.Inner.{HeldSays, SoundSays, CountedSays, Short, OnImage, LeftIn};

use answers::{Changed, Refusal, Reply};
use tree::Tree;

// Why a call was refused.
#[derive(Clone, Copy, PartialEq, Eq)]
pub enum ImageRefusal {
    // 1 to 12: as the maps refuse.
    Map(Refusal),
    // 16: the bytes are no image: a wrong length, a wrong tag, or the fields in a wrong order.
    NoImage,
}

impl ImageRefusal {
    // The number that the papers give this refusal. By this name, and no `From`, as `NumberSays` promises it;
    // and no cast, as one of the cases holds a refusal of the maps.
    pub fn number(self) -> u8
        ensures { NumberSays self result }
    {
        match self {
            ImageRefusal::Map(why) => why.number(),
            ImageRefusal::NoImage => 16,
        }
    }
}

// A map's refusal is one of this crate, by the same number.
impl From<Refusal> for ImageRefusal {
    ghost from_gives = { λ why refusal. refusal ≡ Map why };

    fn from(why: Refusal) -> ImageRefusal {
        Self::Map(why)
    }
}

// What reading comes to, and the map that was read. A struct still, as `ReadSays` promises the empty map
// with a refusal.
#[derive(Clone, Copy)]
pub struct Reading {
    pub answer: Result<(), ImageRefusal>,
    pub map: Tree,
}

// ---- a map into an image and back

// Both ask the tree for its count, which it refuses exactly where it is not sound.

// Writes the image of the map over all the bytes. Refused: 16 where there are not 136 of them, 1 where
// the map is not sound. A refusal leaves every byte as it was.
#[tactic(auto, using(crate::proofs::Outcomes::write_short, crate::proofs::Outcomes::write_unsound))]
pub fn write(map: Tree, image: &mut [u8]) -> Result<(), ImageRefusal>
    ensures { WriteSays map image.old result image.new }
{
    if image.len() != fields::LENGTH {
        return Err(ImageRefusal::NoImage);
    }
    map.used()?;
    fields::put(image, map);
    Ok(())
}

// The map that the bytes hold. Refused: 16 where they are no image, 1 where the summary is at odds with
// the words. With a refusal comes the empty map.
#[tactic(auto, unfolding(crate::specs::Says::read_of, answers::specs::Said::judged, answers::specs::Said::leaving))]
pub fn read(image: &[u8]) -> Reading
    ensures { ReadSays image.now result }
{
    match sound_in(image) {
        Ok(map) => Reading {
            answer: Ok(()),
            map,
        },
        Err(why) => Reading {
            answer: Err(why),
            map: Tree::new_empty(),
        },
    }
}

// The map that the bytes hold. Refused: 16, then 1.
#[tactic(auto, using(crate::proofs::Outcomes::judged_none, crate::proofs::Outcomes::judged_unsound))]
fn sound_in(image: &[u8]) -> Result<Tree, ImageRefusal>
    ensures { SoundSays image.now result }
{
    let found = held_in(image)?;
    found.used()?;
    Ok(found)
}

// The map that the bytes hold, sound or not. Refused: 16.
#[tactic(auto, using(crate::proofs::Image::image_long), unfolding(crate::specs::Image::is_image, answers::specs::Said::judged))]
fn held_in(image: &[u8]) -> Result<Tree, ImageRefusal>
    ensures { HeldSays image.now result }
{
    if fields::is_image(image) {
        Ok(fields::held(image))
    } else {
        Err(ImageRefusal::NoImage)
    }
}

// ---- the calls for C: the start, 0 for a free, the count, or a refusal's number negated. A refused call
// changes no byte of the image.

// Takes n slots at the lowest free start that is a multiple of 2^a, and answers that start. Refused, in
// this order: -16 where the bytes are no image, -1 where its summary is at odds with its words, -2 where
// n is 0, -3 where a is 10 or more, -4 where n is above 1,024, -7 where no start fits.
pub fn slotmap_take(image: &mut [u8], n: usize, a: usize) -> i32
    ensures { TakeTells image.old n a result image.new }
{
    on_image(image, |map| map.take(n, a))
}

// Frees the n slots from `start` on, each of which must be used, and answers 0. Refused, in this order:
// -16, -1, -2 where n is 0, -4 where the range does not end within 1,024 slots, -5 where a slot is free
// already.
pub fn slotmap_free(image: &mut [u8], start: usize, n: usize) -> i32
    ensures { FreeTells image.old start n result image.new }
{
    on_image(image, |map| map.free(start, n))
}

// How many slots are used. Refused, in this order: -16, -1.
pub fn slotmap_used(image: &[u8]) -> i32
    ensures { UsedTells image.now result image.now }
{
    match counted(image) {
        Ok(count) => count as i32,
        Err(why) => negated(why),
    }
}

#[tactic(auto, using(crate::proofs::Outcomes::answered_none, crate::proofs::Outcomes::says_count))]
fn counted(image: &[u8]) -> Result<u64, ImageRefusal>
    ensures { CountedSays image.now result }
{
    let map = held_in(image)?;
    Ok(map.used()?)
}

// Carries a change out on the map that the bytes hold, where they are an image. A `match` and no `?`, here and
// where C asks for the count: it is told one number, whatever comes.
fn on_image<F: FnOnce(Tree) -> Changed<Refusal, Tree>>(image: &mut [u8], change: F) -> i32
    requires callable { F.IsAlwaysCallable change }
    requires short { (map : Tree) (changed : Changed Refusal Tree) → F.post change map changed → Short changed.answer }
    ensures { OnImage image.old (F.post change) result image.new }
{
    match held_in(image) {
        Ok(map) => left_in(image, change(map)),
        Err(why) => negated(why),
    }
}

// Writes the map that a call left, unless the call was refused, and tells its answer.
fn left_in(image: &mut [u8], changed: Changed<Refusal, Tree>) -> i32
    requires { (length image.old ≡ 136) × Short changed.answer }
    ensures { LeftIn image.old changed result image.new }
{
    match changed.answer {
        Ok(reply) => {
            fields::put(image, changed.map);
            match reply {
                Reply::At(start) => start as i32,
                Reply::Done => 0,
            }
        }
        Err(why) => negated(ImageRefusal::Map(why)),
    }
}

// The refusal's number, negated.
fn negated(why: ImageRefusal) -> i32
    ensures { result ≡ neg_ℤ (pos (image_number_of why)) }
{
    -(why.number() as i32)
}
