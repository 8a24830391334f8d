// Two collectors, perhaps of different kinds, side by side.
ghost use Rattle.std.specs.Prelude.{◌≡◌, Decides};

use super::collector::Collector;
use super::field::Field;

// Do they hold the same?
pub fn equal<C: Collector, D: Collector>(c: &C, d: &D) -> bool
    ensures { Decides result (C.Collector.table c.now ≡ D.Collector.table d.now) }
{
    (0..Field::END).all(|field| c.ask(field) == d.ask(field))
}
