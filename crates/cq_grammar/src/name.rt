use cq_value::Text;

/// A name, folded to lower case, with the place of its token in the text.
#[derive(Drop)]
pub struct Name {
    pub text: Text,
    pub at: u64,
}
