//! The atomic steps of a run, as contracts see them. No value of these types is made.

use std::collections::LinkedList;

/// An atomic step of a pass.
pub struct Step {
    /// What kind of step it is. The map says what each kind does.
    pub kind: u8,
    /// The place of its word.
    pub place: u32,
    /// The word that the step found. For a store it is the word that the store wrote.
    pub word: u64,
    /// How many changes had taken effect after the step.
    pub seen: u64,
    /// How many records the pass owned after the step.
    pub owned: u64,
}

/// An entry of the order of all steps.
pub struct OrderEntry<E> {
    /// The pass that made the step.
    pub pass: u32,
    /// The step itself.
    pub step: Step,
    /// The word that the step left.
    pub left: u64,
    /// The changes that took effect at the step: one or none.
    pub changes: LinkedList<E>,
}
