// The labels of rules.
ghost use Rattle.std.specs.Prelude.{◌≡◌};
ghost use Rattle.file_format.specs.Fields.{label_fine};

use refusals::limits::LONGEST_LABEL;

pub(crate) fn is_label(label: &[u8]) -> bool
    ensures { result ≡ label_fine label.now }
{
    label.len() <= LONGEST_LABEL && label.iter().all(|b| b.is_ascii_graphic())
}
