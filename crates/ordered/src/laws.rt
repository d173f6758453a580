// What holds of keys and their order, and of the lists that an ordered index means.
// One for each crate: its laws are this function's clause, and a function takes no clause as a parameter.
ghost use Rattle.ordered.specs.Keys.{Faithful};
ghost use Rattle.ordered.specs.Laws.{Laws, OrderLaws};

pub fn laws_stand<V: Copy>() -> u8
    ensures keys { Faithful }
    ensures order { OrderLaws }
    ensures pairs { Laws V }
{
    0
}
