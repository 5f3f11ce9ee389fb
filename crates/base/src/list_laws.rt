//! What holds of lists that are searched, mapped and filtered, whatever their elements are. It has no code.
