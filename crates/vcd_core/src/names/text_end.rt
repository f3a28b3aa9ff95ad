//! The ends of texts, by which one look tells most texts apart.

ghost use Rattle.std.specs.Prelude.{◌≡◌, [], ◌++◌, List, ℕ, IsTrue};
ghost use Rattle.vcd_core.specs.inside.names.TextEnd.{longer_end, text_end};

/// The last 16 bytes of a text as a number, of which the last byte is the lowest. Of a shorter text
/// they are all.
#[derive(Clone, Copy)]
pub(crate) struct TextEnd {
    bytes: u128,
    /// The bits that are of a byte of the text.
    mask: u128,
}

impl TextEnd {
    #[tactic(auto, unfolding(crate::specs::inside::names::TextEnd::end_after))]
    pub(crate) fn new() -> TextEnd
        ensures { result ≡ text_end [] }
    {
        TextEnd { bytes: 0, mask: 0 }
    }

    pub(crate) fn with_byte(self, byte: u8) -> TextEnd
        ensures { result ≡ longer_end self byte }
    {
        TextEnd {
            bytes: self.bytes.wrapping_mul(256).wrapping_add(byte as u128),
            mask: self.mask.wrapping_mul(256).wrapping_add(255),
        }
    }

    /// Whether a text with this end may end with one that has the other end. It is never false if
    /// the text does. If it is true, the caller compares the bytes.
    #[inline(always)]
    #[tactic(auto, using(crate::proofs::names::text_end::EndsOfTexts::passes_test))]
    pub(crate) fn may_end_with(self, other: TextEnd) -> bool
        ensures { (text prefix end : List ℕ) → self ≡ text_end text → other ≡ text_end end
            → text ≡ prefix ++ end → IsTrue result }
    {
        self.bytes & other.mask == other.bytes & other.mask
    }
}
