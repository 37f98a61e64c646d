// What a block reads: the bits of its input ports, and TWOHAND's effective mask.
ghost use Rattle.std.specs.Prelude.{◌≡◌, ◌+◌, ◌*◌, ◌%◌};
ghost use Rattle.block.specs.Inputs.{effective_mask};

// Bits, with the bit of the word of one more port below them. Nothing is cut for fewer than 32 ports.
pub fn bit_below(word: u32, bits: u32) -> u32
    ensures { result ≡ word % 2 + 2 * (bits % 2147483648) }
{
    word % 2 + 2 * (bits % 2147483648)
}

// TWOHAND's effective mask, from the bits of its four raw inputs.
#[tactic(auto, unfolding(crate::specs::Inputs::effective_mask), using(crate::proofs::Masks::masked))]
pub fn effective(p: &[u8], raw: u32) -> u32
    ensures { result ≡ effective_mask p.now raw }
{
    let active = u32::from(kind::active_mask(p));
    let opened = u32::from(kind::open_mask(p));
    (raw % 16 ^ opened % 16) & (active % 16)
}
