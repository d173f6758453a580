// What holds of tokens and of names.
// One for each crate: its laws are this function's clause, and a function takes no clause as a parameter.
ghost use Rattle.names.specs.Laws.{Laws};

pub fn laws_stand() -> u8
    ensures { Laws }
{
    0
}
