//! Memory that is taken away.
ghost use Rattle.std.specs.Prelude.{◌≤◌, IfOk, length};

use linked_list_allocator::LocalHeap;
use std::alloc::{AllocError, Global};

/// Fills a heap, block by block, until it has no more than so many bytes of room, or gave 1024 blocks. The room comes back
/// with what is answered. A heap promises nothing of what it has left, so what is left isn't promised here.
pub fn filled<'a>(
    alloc: Global,
    heap: &'a LocalHeap,
    room: usize,
) -> Result<Vec<Vec<u8, &'a LocalHeap>, Global>, AllocError>
    ensures few { IfOk result (λ blocks. length blocks.items ≤ 1024) }
{
    let mut blocks = Vec::new(alloc);
    for _ in 0..1024usize {
        if heap.free() <= room {
            break;
        }
        blocks.push(Vec::with_capacity(heap, 16)?)?;
    }
    Ok(blocks)
}
