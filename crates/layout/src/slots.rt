// Where a descriptor may begin. Document 01, "Memory, blocks and descriptors".

ghost use Rattle.std.specs.Prelude.{◌≡◌, ◌≤◌, true, false, MatchOption};
ghost use Rattle.layout.specs.Layout.{good_ptr, word_of};

// The number of a word at which a descriptor may begin: its four words lie in descriptor memory.
#[derive(Clone, Copy)]
pub struct Slot {
    pub word: usize,
    pub ghost inside: { word ≤ 2044 },
}

// The slot that a pointer names. One that names none is not good.
pub fn slot_at(p: u32) -> Option<Slot>
    ensures { MatchOption result (good_ptr p ≡ false) (λ d. (good_ptr p ≡ true) × (d.word ≡ word_of p)) }
{
    let word = crate::descriptor_word(p);
    if word <= crate::LAST_DESCRIPTOR {
        Some(Slot { word })
    } else {
        None
    }
}
