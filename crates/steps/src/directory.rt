// The directory: the page that it names for a translation page, and a page named.
ghost use Rattle.std.specs.Prelude.{◌≡◌, ◌<◌, length};
ghost use Rattle.scope.specs.Lent.{named};
ghost use Rattle.scope.specs.Steps.{directory_names_it};
ghost use Rattle.lent.specs.declared.Work.{Work};
ghost use Rattle.lent.specs.Model.{entry};
ghost use Rattle.lent.specs.Shapes.{DoesDirectory};

use lent::{Entry, decode};

pub fn named(t: u32, directory: &[u32]) -> Entry
    requires { t < length directory.now }
    ensures { entry result ≡ named t directory.now }
{
    decode(directory[t as usize])
}

pub fn names_it(t: u32, p: u32, directory: &mut [u32])
    requires { t < length directory.old }
    ensures { (w : Work) → DoesDirectory (directory_names_it t p) directory.old w tt directory.new w }
{
    directory[t as usize] = p;
}
