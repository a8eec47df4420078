//! Parameters as a registry keeps them.
use crate::params::Params;
use act_registry::Kinded;

impl Kinded for Params {
    ghost use Rattle.act_kinds.specs.Params.{kind_number};

    ghost kind_of = { kind_number };

    fn kind(&self) -> u32 {
        Params::kind(*self).number()
    }
}
