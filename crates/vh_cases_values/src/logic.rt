mod exhaustive;
mod plain;
mod rows;
