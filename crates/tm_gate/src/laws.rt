//! Laws of the gate: what a reader may rely on, for definitions alone.
ghost use Rattle.tm_gate.specs.Laws.{OneSlotIsWhole, RootsAreGood, SequenceIsFree, SlotsSpellOne};

/// Of two slots, one is always whole: whatever a stop leaves while the gate is turned, the slot that
/// the selector names is the old one or the new one.
pub fn one_slot_is_whole()
    ensures { OneSlotIsWhole }
{}

/// A root whose fields are within their bounds is spelled by a slot that is good.
pub fn roots_are_good()
    ensures { RootsAreGood }
{}

/// A root within its bounds stays so under another sequence, as [`crate::turn`] writes it.
pub fn sequence_is_free()
    ensures { SequenceIsFree }
{}

/// Two roots whose fields are within their bounds are one where their slots are.
pub fn slots_spell_one()
    ensures { SlotsSpellOne }
{}
