ghost use Rattle.examples.specs.Forms.{FormExamples};

/// The examples of forms have just the breaches that specs/Forms.antt says.
pub fn form_examples()
    ensures { FormExamples }
{}
