// The calls by value that every map has, whatever its size, as one trait. The word, the tree and the third
// level keep it by handing on to their own calls, which stay with their types, as document 01 has them. Rests
// on `word`, `tree` and `third`.
#![tactic(auto)]

ghost use Rattle.std.specs.Prelude.{◌≡◌};
ghost use Rattle.slots.specs.Kinds.{plain};
ghost use Rattle.slots.specs.View.{View};
ghost use Rattle.word.specs.Layout.{word_view};
ghost use Rattle.tree.specs.Layout.{tree_view};
ghost use Rattle.third.specs.Layout.{third_view};
ghost use Rattle.maps.specs.Says.{TakeSays, ClaimSays, FreeSays, SetSays, NextFreeSays, GetSays, EmptySays, UsedSays, CapacitySays};

use answers::{Changed, Refusal};
use third::Third;
use tree::Tree;
use word::Word;

// A map of slots: what each call answers, and the map that it leaves, is what the view has.
pub trait Map: Copy {
    ghost view: { View plain };

    // The map of the view that a value is.
    ghost held: { Self → view.Map };

    fn take(self, n: usize, a: usize) -> Changed<Refusal, Self>
        ensures { TakeSays view held self n a result };

    fn claim(self, start: usize, n: usize) -> Changed<Refusal, Self>
        ensures { ClaimSays view held self start n result };

    fn free(self, start: usize, n: usize) -> Changed<Refusal, Self>
        ensures { FreeSays view held self start n result };

    fn set(self, start: usize, n: usize, used: bool) -> Changed<Refusal, Self>
        ensures { SetSays view held self start n used result };

    fn next_free(self, start: usize) -> Result<usize, Refusal>
        ensures { NextFreeSays view held self start result };

    fn get(self, slot: usize) -> Result<bool, Refusal>
        ensures { GetSays view held self slot result };

    fn empty(self) -> Result<bool, Refusal>
        ensures { EmptySays view held self result };

    fn used(self) -> Result<u64, Refusal>
        ensures { UsedSays view held self result };

    fn capacity(self) -> usize
        ensures { CapacitySays view result };

    // A value is known by its map of the view: so the demands hold of it (`map_demands`).
    ghost known: { (one other : Self) → held one ≡ held other → one ≡ other };
}

impl Map for Word {
    ghost view = { word_view };

    ghost held = { λ map. map };

    ghost known = { λ one other same. same };

    fn take(self, n: usize, a: usize) -> Changed<Refusal, Word> {
        Word::take(self, n, a)
    }

    fn claim(self, start: usize, n: usize) -> Changed<Refusal, Word> {
        Word::claim(self, start, n)
    }

    fn free(self, start: usize, n: usize) -> Changed<Refusal, Word> {
        Word::free(self, start, n)
    }

    fn set(self, start: usize, n: usize, used: bool) -> Changed<Refusal, Word> {
        Word::set(self, start, n, used)
    }

    fn next_free(self, start: usize) -> Result<usize, Refusal> {
        Word::next_free(self, start)
    }

    fn get(self, slot: usize) -> Result<bool, Refusal> {
        Word::get(self, slot)
    }

    // The word's own is never refused.
    fn empty(self) -> Result<bool, Refusal> {
        Ok(Word::empty(self))
    }

    fn used(self) -> Result<u64, Refusal> {
        Ok(Word::used(self) as u64)
    }

    fn capacity(self) -> usize {
        Word::capacity(self)
    }
}

impl Map for Tree {
    ghost view = { tree_view };

    ghost held = { λ map. map };

    ghost known = { λ one other same. same };

    fn take(self, n: usize, a: usize) -> Changed<Refusal, Tree> {
        Tree::take(self, n, a)
    }

    fn claim(self, start: usize, n: usize) -> Changed<Refusal, Tree> {
        Tree::claim(self, start, n)
    }

    fn free(self, start: usize, n: usize) -> Changed<Refusal, Tree> {
        Tree::free(self, start, n)
    }

    fn set(self, start: usize, n: usize, used: bool) -> Changed<Refusal, Tree> {
        Tree::set(self, start, n, used)
    }

    fn next_free(self, start: usize) -> Result<usize, Refusal> {
        Tree::next_free(self, start)
    }

    fn get(self, slot: usize) -> Result<bool, Refusal> {
        Tree::get(self, slot)
    }

    fn empty(self) -> Result<bool, Refusal> {
        Tree::empty(self)
    }

    fn used(self) -> Result<u64, Refusal> {
        Tree::used(self)
    }

    fn capacity(self) -> usize {
        Tree::capacity(self)
    }
}

impl Map for Third {
    ghost view = { third_view };

    ghost held = { λ map. map };

    ghost known = { λ one other same. same };

    fn take(self, n: usize, a: usize) -> Changed<Refusal, Third> {
        Third::take(self, n, a)
    }

    fn claim(self, start: usize, n: usize) -> Changed<Refusal, Third> {
        Third::claim(self, start, n)
    }

    fn free(self, start: usize, n: usize) -> Changed<Refusal, Third> {
        Third::free(self, start, n)
    }

    fn set(self, start: usize, n: usize, used: bool) -> Changed<Refusal, Third> {
        Third::set(self, start, n, used)
    }

    fn next_free(self, start: usize) -> Result<usize, Refusal> {
        Third::next_free(self, start)
    }

    fn get(self, slot: usize) -> Result<bool, Refusal> {
        Third::get(self, slot)
    }

    fn empty(self) -> Result<bool, Refusal> {
        Third::empty(self)
    }

    fn used(self) -> Result<u64, Refusal> {
        Third::used(self)
    }

    fn capacity(self) -> usize {
        Third::capacity(self)
    }
}
