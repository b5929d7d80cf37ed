ghost use Rattle.std.specs.Prelude.{◌≡◌, IfOk};

use pt_choice::NoMemory;
use pt_typed::ToVal;
use std::alloc::Global;

/// A thing under test and a model beside it, which is plain enough to be believed.
///
/// What each function answers, other than want of memory, follows from its arguments.
pub trait Beside<C: ToVal>: Drop {
    ghost use Rattle.pt_against.specs.Compared.{Pairing};

    type Thing: Drop;

    type Model: Drop;

    type Answer: PartialEq + Drop;

    /// How the two begin, and what commands do to them.
    ghost pairing: { Self → Pairing Self.Thing Self.Model Self.Answer };

    /// The thing before any command.
    fn thing(&self, alloc: Global) -> Result<Self::Thing, NoMemory>
        ensures { IfOk result (λ thing. thing ≡ (pairing self.now).thing) };

    /// The model before any command.
    fn model(&self, alloc: Global) -> Result<Self::Model, NoMemory>
        ensures { IfOk result (λ model. model ≡ (pairing self.now).model) };

    /// Whether the command may be given now. One that may not is passed over.
    fn allows(&self, model: &Self::Model, command: &C) -> bool
        ensures { result ≡ (pairing self.now).allows model.now (C.val command.now) };

    /// Gives the command to the thing.
    fn try_thing(
        &self,
        alloc: Global,
        thing: &mut Self::Thing,
        command: &C,
    ) -> Result<Self::Answer, NoMemory>
        ensures { IfOk result (λ answer. (answer, thing.new) ≡ (pairing self.now).by_thing thing.old (C.val command.now)) };

    /// Gives the command to the model.
    fn try_model(
        &self,
        alloc: Global,
        model: &mut Self::Model,
        command: &C,
    ) -> Result<Self::Answer, NoMemory>
        ensures { IfOk result (λ answer. (answer, model.new) ≡ (pairing self.now).by_model model.old (C.val command.now)) };

    /// The point at which the check fails where the answers to this command differ. Commands of one sort have one point, so that a
    /// reduction may leave out others before it.
    fn point(&self, command: &C) -> u32
        ensures { result ≡ (pairing self.now).point (C.val command.now) };
}
