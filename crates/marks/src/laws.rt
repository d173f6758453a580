// What holds of the greatest mark below a byte.
// One for each crate: its laws are this function's clause, and a function takes no clause as a parameter.
ghost use Rattle.marks.specs.Search.{Laws};

pub fn laws_stand() -> u8
    ensures { Laws }
{
    0
}
