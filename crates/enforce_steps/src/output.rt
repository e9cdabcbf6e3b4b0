use model_files::Form;

/// Where the target of an enforcement is put.
#[derive(Clone, Copy)]
pub struct Output<'a> {
    /// The form of its file.
    pub form: Form,
    /// The path of its file, which refusals name.
    pub path: &'a str,
    /// How many bytes a file may have.
    pub limit: usize,
}
