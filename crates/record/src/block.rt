// The block record: "57 42, address (4), content (512)".
ghost use Rattle.std.specs.Prelude.{◌≡◌, ◌++◌, ◌≤◌, length, take};
ghost use Rattle.paper.specs.Diff.{address_of, record_bytes, check_record};
ghost use Rattle.number.specs.Put.{put};
ghost use Rattle.record.specs.Blocks.{said_address};

use crate::mark;
use crate::refusal::Refusal;
use number::Field;

// "an address is at most 65,535"
pub const MAX_ADDRESS: u32 = 65_535;

// A block's record is known by its address; its content stays where it is.
#[derive(Clone, Copy)]
pub struct Block {
    pub address: u32,
}

impl Block {
    pub const SIZE: usize = 518;
    // where the content starts, and its length
    pub const CONTENT: usize = 6;

    pub const BYTES: usize = 512;

    // the second byte of its mark
    const MARK: u8 = 0x42;

    // The address of the record that `rest` opens with.
    pub fn address_of(rest: &[u8]) -> u32
        requires { 518 ≤ length rest.now }
        ensures { result ≡ address_of rest.now }
    {
        u32::read(rest, 2)
    }

    // One record, "mark before address"; `low` is the lowest address still allowed.
    #[tactic(auto, using(crate::proofs::Checks::record_large))]
    pub fn read(rest: &[u8], low: u32) -> Result<Block, Refusal>
        requires { 518 ≤ length rest.now }
        ensures { said_address result ≡ check_record rest.now low }
    {
        if !mark::opens(rest, Block::MARK) {
            return Err(Refusal::BadMark);
        }
        let address = Block::address_of(rest);
        if address > MAX_ADDRESS {
            return Err(Refusal::BadOrder);
        }
        if address < low {
            return Err(Refusal::BadOrder);
        }
        Ok(Block { address })
    }

    // The record of a block, with the first 512 bytes of `content`, put where `out` opens.
    pub fn write(self, out: &mut [u8], content: &[u8])
        requires { (518 ≤ length out.old) × (512 ≤ length content.now) }
        ensures { out.new ≡ put 0 (record_bytes self.address (take 512 content.now)) out.old }
    {
        out[0] = mark::FIRST;
        out[1] = Block::MARK;
        self.address.write(out, 2);
        number::copy::<{ Block::BYTES }>(&mut out[Block::CONTENT..], content);
    }
}
