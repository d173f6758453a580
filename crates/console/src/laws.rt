// What holds of what is written.
// One for each crate: its laws are this function's clause, and a function takes no clause as a parameter.
ghost use Rattle.console.specs.Laws.{Laws};

pub fn laws_stand() -> u8
    ensures { Laws }
{
    0
}
