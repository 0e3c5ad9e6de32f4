//! Laws of the folders in memory.

ghost use Rattle.std.specs.Prelude.{◌≡◌, ◌≤◌, ℕ};
ghost use Rattle.edge_io.specs.MemState.{disk_then, folder_of, shelf_calls};
ghost use Rattle.edge_io.specs.declared.mem_shelf.MemShelf.{MemShelf};

/// The disk of a shelf in memory at its clock, and at each number past it, is the disk now.
pub fn the_last_moment_is_now()
    ensures { (shelf : MemShelf) (moment : ℕ) → shelf_calls shelf ≤ moment → disk_then shelf moment ≡ (folder_of shelf).disk }
{}
