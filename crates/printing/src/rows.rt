// Rows and lists of words, with a space before each word. They may be longer than the buffer.
use crate::printer::Printer;

impl Printer {
    // Prints each value by the same call.
    fn row<T: Copy, F: Fn(&mut Printer, T)>(&mut self, values: &[T], print: F)
        requires { F.IsAlwaysCallable print }
    {
        for value in values {
            print(self, *value);
        }
    }

    // Prints floats, and not how many.
    pub fn float_row(&mut self, values: &[f32]) {
        self.row(values, Printer::float);
    }

    // Prints a text, and floats behind it.
    pub fn named_row(&mut self, name: &[u8], values: &[f32]) {
        self.text(name);
        self.float_row(values);
    }

    // Prints how many floats there are and the floats.
    pub fn float_list(&mut self, values: &[f32]) {
        self.number(values.len() as u64);
        self.float_row(values);
    }

    // Prints how many numbers there are and the numbers.
    pub fn number_list(&mut self, values: &[u32]) {
        self.number(values.len() as u64);
        self.row(values, |out, n| out.number(u64::from(n)));
    }

    // Prints bytes as one word of hex digits, two to a byte, or `-` where there are none.
    pub fn byte_list(&mut self, bytes: &[u8]) {
        self.space();
        if bytes.is_empty() {
            self.text(b"-");
        }
        self.row(bytes, Printer::hex_byte);
    }
}
