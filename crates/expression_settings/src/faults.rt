use case_texts::Pen;
use mof_metamodel::Text;
use ocl_environments::{TypeError, TypeFault};

/// A fault of types: its kind and its texts.
pub fn put_type_fault(pen: &mut Pen, error: &TypeError) {
    match error {
        TypeError::Fault(fault) => put_fault(pen, fault),
        TypeError::NoMemory => pen.put("no memory"),
    }
}

fn put_fault(pen: &mut Pen, fault: &TypeFault) {
    pen.put(fault.word());
    match fault {
        TypeFault::WrongType { wanted, found } => {
            put_name(pen, wanted);
            put_name(pen, found);
        }
        TypeFault::UnknownName(name)
        | TypeFault::WrongCount(name)
        | TypeFault::ModelMix(name)
        | TypeFault::QueryCycle(name)
        | TypeFault::DuplicateName(name)
        | TypeFault::Unbound(name)
        | TypeFault::WhenCycle(name)
        | TypeFault::CallShape(name)
        | TypeFault::KeyShape(name)
        | TypeFault::UnknownModel(name) => put_name(pen, name),
    }
}

fn put_name(pen: &mut Pen, name: &Text) {
    pen.put(" ");
    pen.put(name.as_str());
}
