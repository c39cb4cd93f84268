//! What connections can ask of a ledger, and that its replies can be told: a law each.
#![tactic(auto)]

ghost use Rattle.connection_laws.specs.Desks.{GlancesCanBeTold};
ghost use Rattle.ledger_laws.specs.Serving.{CanBeServed};

use core_machine::Ledger;

/// The connections of its policy can ask a ledger.
pub fn ledgers_can_be_served(ledger: &Ledger)
    ensures { CanBeServed ledger.now }
{
    ledger.keeps();
}

/// Each reply that a glance shows over the policy and birth of a ledger can be told.
pub fn glances_can_be_told(ledger: &Ledger)
    ensures { GlancesCanBeTold ledger.now.named ledger.now.birth }
{
    ledger.keeps();
}
