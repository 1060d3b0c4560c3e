ghost use Rattle.examples.specs.All.{Examples};

/// All the examples hold together; see specs/All.antt.
pub fn examples()
    ensures { Examples }
{
    super::form_examples();
    super::small_types();
    super::book_examples();
}
