// A row of marks, copied.
ghost use Rattle.std.specs.Prelude.{◌≡◌, length};

// All marks of a row become those of another.
pub fn copy_marks(from: &[bool], to: &mut [bool])
    requires { length from.now ≡ length to.old }
    ensures { to.new ≡ from.now }
{
    to.copy_from_slice(from);
}
