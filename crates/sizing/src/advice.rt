ghost use Rattle.std.specs.Prelude.{◌≡◌};
ghost use Rattle.processor.specs.Refusals.{expected_text};

use processor::refusal::Refusal;

// What was expected where a file has a fault.
pub fn expected(cause: Refusal) -> &'static str
    ensures { result.now ≡ expected_text cause }
{
    cause.expected()
}
