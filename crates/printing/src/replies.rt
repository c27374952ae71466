// What answers to cases share.
use crate::printer::Printer;

impl Printer {
    // Prints what most answers begin with: the kind of case, and the number and the place of the answer.
    pub fn head(&mut self, kind: &[u8], answer: u32, place: u64) {
        self.text(kind);
        self.number(u64::from(answer));
        self.number(place);
    }

    // Prints a whole answer that has floats alone behind its head.
    pub fn float_answer(&mut self, kind: &[u8], answer: u32, place: u32, values: &[f32]) {
        self.head(kind, answer, u64::from(place));
        self.float_row(values);
        self.line_end();
    }

    // Prints the lists of a mesh, and ends the line.
    pub fn mesh_lists(&mut self, vertices: &[f32], sources: &[u32], triangles: &[u32]) {
        self.float_list(vertices);
        self.number_list(sources);
        self.number_list(triangles);
        self.line_end();
    }
}
