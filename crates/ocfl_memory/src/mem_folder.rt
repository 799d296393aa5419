//! A folder over a system in memory.
ghost use Rattle.std.specs.Prelude.{◌≡◌, IsTrue};
ghost use Rattle.ocfl_tree.specs.Store.{empty_store};
ghost use Rattle.ocfl_memory.specs.MemSystem.{of_tree};

use crate::mem_system::MemSystem;
use crate::mem_tree::MemTree;
use crate::mem_watch::MemWatch;
use ocfl_folder::FsTree;
use ocfl_tree::Tree;
use std::alloc::Global;

/// A folder over what a tree holds, which tells that tree. Of its system the call of this number
/// fails, counted from 1.
pub fn folder_over(alloc: Global, tree: MemTree, when: u64) -> FsTree<MemSystem<MemWatch>>
    ensures told { IsTrue ⟦<FsTree<MemSystem<MemWatch>> as Tree>⟧.told }
    ensures state { ⟦<FsTree<MemSystem<MemWatch>> as Tree>⟧.state result
        ≡ of_tree tree.store.tree empty_store }
{
    FsTree::over(alloc, MemSystem::over(tree, MemWatch::new(alloc, when)))
}
