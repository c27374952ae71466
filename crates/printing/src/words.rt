// Words, and what stands between them.
use crate::printer::Printer;

impl Printer {
    pub fn space(&mut self) {
        self.text(b" ");
    }

    pub fn line_end(&mut self) {
        self.text(b"\n");
    }

    // Prints a space and a number.
    pub fn number(&mut self, n: u64) {
        self.space();
        self.decimal(n);
    }

    // Prints a space and a float.
    pub fn float(&mut self, x: f32) {
        self.space();
        self.hex(x);
    }
}
