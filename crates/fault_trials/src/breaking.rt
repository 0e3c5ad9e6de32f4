//! Which call of the outside fails.

ghost use Rattle.std.specs.Prelude.{◌≡◌, true, false, []};

/// An object of the outside.
#[derive(Clone, Copy, PartialEq, Eq, Debug)]
pub enum Object {
    /// The folder of runs.
    Folder,
    /// The files of the project.
    Files,
    /// The spawner of programs.
    Spawner,
    /// The input.
    Input,
    /// The output.
    Output,
}

/// All of them.
pub const OBJECTS: [Object; 5] = [
    Object::Folder,
    Object::Files,
    Object::Spawner,
    Object::Input,
    Object::Output,
];

/// The call that fails: the one of this number of this object.
#[derive(Clone, Copy)]
pub struct Fault {
    /// The object.
    pub object: Object,
    /// The number of the call, from 0.
    pub call: u64,
}

impl Fault {
    /// The calls of this object that fail: these, where it is the one that does, and else none.
    pub fn of<'c>(&self, object: Object, calls: &'c [u64]) -> &'c [u64] {
        calls_where(self.object == object, calls)
    }
}

/// The calls of an object that fail: these, where it is the one that does, and else none.
pub fn calls_where(fails: bool, calls: &[u64]) -> &[u64]
    ensures yes { fails ≡ true → result.now ≡ calls.now }
    ensures no { fails ≡ false → result.now ≡ [] }
{
    if fails { calls } else { &[] }
}
