use case_texts::Pen;
use model_building::Refusal;
use mof_metamodel::NoMemory;

/// What a line asks for is not there, or may not stand.
#[derive(Clone, Copy)]
pub struct Refused;

impl From<NoMemory> for Refused {
    fn from(_error: NoMemory) -> Refused {
        Refused
    }
}

impl From<Refusal> for Refused {
    fn from(_refusal: Refusal) -> Refused {
        Refused
    }
}

/// Prints a line that is refused.
pub fn put_if_refused(pen: &mut Pen, line: &str, made: &Result<(), Refused>) {
    if made.is_err() {
        pen.put(line);
        pen.put(" => refused\n");
    }
}
