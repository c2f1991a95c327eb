use crate::laws::texts_assemble;

// The law is the clause of a call that does nothing.
#[test]
fn the_law_is_called(_rt: HostRuntime) {
    texts_assemble();
}
