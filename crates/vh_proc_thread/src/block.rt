ghost use Rattle.std.specs.Prelude.{◌≡◌};
ghost use Rattle.vh_proc_thread.specs.Blocks.{block_of};

use vh_base::ObjId;
use vh_design::Block;

// Of an object, the block that a position stands in, by the innermost block there.
pub(crate) fn block_of(blocks: &[Block], target: ObjId, inner: Option<u32>) -> Option<Block>
    ensures { result ≡ block_of blocks.now target inner }
{
    let number = inner?;
    let block = blocks.get(number as usize)?;
    if block.object == target {
        return Some(*block);
    }
    let around = block.around?;
    if around >= number {
        return None;
    }
    block_of(blocks, target, Some(around))
}
